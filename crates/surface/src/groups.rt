// The labels of a table: the decomposer and the linear engine.
ghost use Rattle.decompose.specs.Promise.{call, after};
ghost use Rattle.linear.specs.Promise.{Promise};
ghost use Rattle.surface.specs.Decompose.{Decomposed};

use graph::table::Table;
use pivot::chooser::Chooser;
use waiting::Part;

pub fn tinoweala_decompose(
    n: usize,
    sources: &[u32],
    targets: &[u32],
    kinds: &[u8],
    mask: u8,
    method: u32,
    order: u32,
    chooser: &mut Chooser,
    list: &[u32],
    waiting: &mut [Part],
    label: &mut [u32],
    numbers: &mut [u32],
    words: &mut [u64],
    draws: &mut usize,
) -> u32
    ensures { Decomposed (call n sources.now targets.now kinds.now mask method order chooser.old list.now waiting.old label.old numbers.old words.old) draws.old (after chooser.new waiting.new label.new numbers.new words.new) (result, draws.new) }
{
    let table = Table {
        n,
        sources,
        targets,
        kinds,
        mask,
    };
    match decompose::decompose(
        &table, method, order, chooser, list, waiting, label, numbers, words,
    ) {
        Err(r) => u32::from(r),
        Ok(made) => {
            *draws = made;
            0
        }
    }
}

pub fn tinoweala_label(
    n: usize,
    sources: &[u32],
    targets: &[u32],
    kinds: &[u8],
    mask: u8,
    label: &mut [u32],
    numbers: &mut [u32],
    words: &mut [u64],
) -> u32
    ensures { Promise (record { n = n; sources = sources.now; targets = targets.now; kinds = kinds.now; mask = mask; label = label.old; numbers = numbers.old; words = words.old }) label.new numbers.new words.new result }
{
    let table = Table {
        n,
        sources,
        targets,
        kinds,
        mask,
    };
    match linear::label(&table, label, numbers, words) {
        Err(r) => u32::from(r),
        Ok(()) => 0,
    }
}

// The decomposer with plain parameters: method 0, order 0, pivot kind 0, and a list of its own for at most 512 vertices.
ghost use Rattle.decompose.specs.Plain.{Plainly};

use graph::refusal::Refusal;
use graph::table::Table;
use machine::NONE;
use pivot::chooser::Chooser;

// The labels of at most 512 vertices, and no draws.
pub fn plain(
    table: &Table,
    label: &mut [u32],
    numbers: &mut [u32],
    words: &mut [u64],
) -> Result<usize, Refusal>
    ensures { Plainly table.now.n table.now.sources.now table.now.targets.now table.now.kinds.now table.now.mask label.old numbers.old words.old label.new numbers.new words.new result }
{
    let mut list = [NONE; 512];
    let mut chooser = Chooser { kind: 0, state: 0 };
    crate::decompose(
        table,
        0,
        0,
        &mut chooser,
        &[],
        &mut list,
        label,
        numbers,
        words,
    )
}

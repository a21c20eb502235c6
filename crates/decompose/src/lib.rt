// The decomposer: the collection is taken apart into its components, and each vertex gets its label.
#![tactic(auto)]

ghost use Rattle.decompose.specs.Promise.{call_on, after, Promise};

use accept::Choice;
use graph::refusal::Refusal;
use graph::table::Table;
use pivot::chooser::Chooser;
use waiting::Part;

mod accept;
mod begin;
pub mod finish;
pub mod plain;
mod turns;

// The labels by method 0 or 1, and the number of draws. Parts wait on the lent list; pivots are drawn on a copy of the chooser, and the lent one is advanced after.
// `method` and `order` are numbers as C gives them: they are read after the tests of what is lent, since 8 comes after 7.
pub fn decompose(
    table: &Table,
    method: u32,
    order: u32,
    chooser: &mut Chooser,
    list: &[u32],
    waiting: &mut [Part],
    label: &mut [u32],
    numbers: &mut [u32],
    words: &mut [u64],
) -> Result<usize, Refusal>
    ensures { Promise (call_on table.now method order chooser.old list.now waiting.old label.old numbers.old words.old) (after chooser.new waiting.new label.new numbers.new words.new) result }
{
    accept::accept(table, label, waiting, numbers, words)?;
    let choice = Choice::read(method, order, chooser.kind)?;
    let at = begin::layout(table);
    let begun = begin::begin(table, choice, *chooser, list, numbers, words);
    let ended = turns::drive(numbers, words, at, waiting, begun);
    *chooser = ended.chooser;
    Ok(finish::finish(numbers, words, at, label, ended))
}

// Trimming: what is left of a part when vertices that no counted edge of it enters, or none leaves, are taken away, again and again.
#![tactic(auto)]

ghost use Rattle.std.specs.Prelude.{◌≡◌};
ghost use Rattle.graph.specs.Reasons.{said};
ghost use Rattle.trim.specs.Promise.{call_of, trim_refusal, Promise};

mod stages;

use graph::limits;
use graph::refusal::Refusal;
use graph::table::Table;

// The first of 1, 2, 21, 3, 4, 22, 5, 6 that applies, whatever the mask.
fn refusal(
    table: &Table,
    part: &[u64],
    left: &[u64],
    numbers: &[u32],
    words: &[u64],
) -> Result<(), Refusal>
    ensures { said result ≡ trim_refusal (call_of table.now part.now left.now numbers.now words.now) }
{
    table.check()?;
    if sets::ill_sized(part, table.n) || sets::ill_sized(left, table.n) {
        return Err(Refusal::WrongLength);
    }
    if limits::lacking(table.n, table.sources.len(), numbers.len(), words.len()) {
        return Err(Refusal::MemoryShort);
    }
    Ok(())
}

// What is left of the part becomes the set `left`. Its size.
pub fn trim(
    table: &Table,
    part: &[u64],
    left: &mut [u64],
    numbers: &mut [u32],
    words: &mut [u64],
) -> Result<usize, Refusal>
    ensures { Promise (call_of table.now part.now left.old numbers.old words.old) left.new numbers.new words.new result }
{
    refusal(table, part, left, numbers, words)?;
    stages::run(table, part, numbers, left);
    let vertices = sets::size(left);
    memory::clear(table.n, table.sources.len(), numbers, words);
    Ok(vertices)
}

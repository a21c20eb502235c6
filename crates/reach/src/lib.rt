// The public search: which permitted vertices are reached from permitted starts by chains of counted edges that stay permitted.
#![tactic(auto)]

ghost use Rattle.std.specs.Prelude.{◌≡◌};
ghost use Rattle.graph.specs.Reasons.{said};
ghost use Rattle.reach.specs.Search.{call_of, search_refusal, Promise};

mod steps;

use graph::limits;
use graph::refusal::Refusal;
use graph::table::Table;

// How many vertices a search reached, and how many counted edges it looked at.
#[derive(Clone, Copy, Debug, PartialEq, Eq)]
pub struct Found {
    pub vertices: usize,
    pub edges: usize,
}

// The first of 1, 2, 21, 3, 4, 22, 5, 6 that applies, whatever the mask.
fn refusal(
    table: &Table,
    starts: &[u64],
    permitted: &[u64],
    reached: &[u64],
    numbers: &[u32],
    words: &[u64],
) -> Result<(), Refusal>
    ensures { said result ≡ search_refusal (call_of table.now starts.now permitted.now reached.now numbers.now words.now) }
{
    table.check()?;
    let n = table.n;
    if sets::ill_sized(starts, n) || sets::ill_sized(permitted, n) || sets::ill_sized(reached, n) {
        return Err(Refusal::WrongLength);
    }
    if limits::lacking(n, table.sources.len(), numbers.len(), words.len()) {
        return Err(Refusal::MemoryShort);
    }
    Ok(())
}

// The set of vertices reached, its size, and the number of counted edges whose source (backward: target) is in it.
pub fn search(
    table: &Table,
    starts: &[u64],
    permitted: &[u64],
    backward: bool,
    reached: &mut [u64],
    numbers: &mut [u32],
    words: &mut [u64],
) -> Result<Found, Refusal>
    ensures { Promise (call_of table.now starts.now permitted.now reached.old numbers.old words.old) backward reached.new numbers.new words.new result }
{
    refusal(table, starts, permitted, reached, numbers, words)?;
    let n = table.n;
    let m = table.sources.len();
    steps::neighbours(table, backward, numbers);
    let edges = steps::run(numbers, n, m, starts, permitted, reached);
    let vertices = sets::size(reached);
    memory::clear(n, m, numbers, words);
    Ok(Found { vertices, edges })
}

// The shortest path from u to v by counted edges, as edge numbers in walking order.
#![tactic(auto)]

ghost use Rattle.std.specs.Prelude.{◌≡◌, length};
ghost use Rattle.graph.specs.Reasons.{said};
ghost use Rattle.paths.specs.Promise.{call, ask_refusal, Promise};

use graph::limits;
use graph::refusal::Refusal;
use graph::table::Table;

pub mod walk;

// The first of 1, 2, 21, 3, 4, 22, 6, 9 that applies: all are known before the search.
fn refusal(table: &Table, u: usize, v: usize, numbers: &[u32], words: &[u64]) -> Result<(), Refusal>
    ensures { said result ≡ ask_refusal table.now.n table.now.sources.now table.now.targets.now table.now.kinds.now u v (length numbers.now) (length words.now) }
{
    table.check()?;
    if limits::lacking(table.n, table.sources.len(), numbers.len(), words.len()) {
        return Err(Refusal::MemoryShort);
    }
    if table.n <= u || table.n <= v {
        return Err(Refusal::VertexOutside);
    }
    Ok(())
}

// The shortest path from u to v in the front of the room, and its length: among several the one that walks back from v by the smallest edges.
pub fn path(
    table: &Table,
    u: usize,
    v: usize,
    room: &mut [u32],
    numbers: &mut [u32],
    words: &mut [u64],
) -> Result<usize, Refusal>
    ensures { Promise (call table.now u v room.old numbers.old words.old) room.new numbers.new words.new result }
{
    refusal(table, u, v, numbers, words)?;
    walk::find(table, u, numbers);
    let answer = walk::settle(table, v, numbers, room);
    memory::clear(table.n, table.sources.len(), numbers, words);
    answer
}

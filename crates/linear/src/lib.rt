// The labels in linear time on every table: one search along a path over the forward index, without recursion.
#![tactic(auto)]

ghost use Rattle.std.specs.Prelude.{◌≡◌};
ghost use Rattle.graph.specs.Reasons.{said};
ghost use Rattle.graph.specs.Table.{graph_of};
ghost use Rattle.linear.specs.Search.{FindAsk, Found};
ghost use Rattle.linear.specs.Promise.{call, label_refusal, Promise};

use graph::limits;
use graph::refusal::Refusal;
use graph::table::Table;
use index::build;
use moves::Regions;

mod search;

// The first of 1, 2, 21, 3, 4, 22, 5, 6 that applies.
fn refusal(table: &Table, label: &[u32], numbers: &[u32], words: &[u64]) -> Result<(), Refusal>
    ensures { said result ≡ label_refusal (call table.now label.now numbers.now words.now) }
{
    table.check()?;
    if label.len() != table.n {
        return Err(Refusal::WrongLength);
    }
    if limits::lacking(table.n, table.sources.len(), numbers.len(), words.len()) {
        return Err(Refusal::MemoryShort);
    }
    Ok(())
}

// The forward index is made, and each vertex gets its label as its colour. The steps of the search.
fn find(table: &Table, label: &mut [u32], w: &mut [u32]) -> usize
    requires { FindAsk (graph_of table.now) table.now.kinds.now label.old w.old }
    ensures { Found (graph_of table.now) label.new w.old w.new result }
{
    build::one(table, w);
    label.fill(table.n as u32);
    let at = Regions {
        n: table.n,
        base: table.n + 1 + table.sources.len(),
    };
    search::roots(w, at, label)
}

// Each vertex gets its label.
pub fn label(
    table: &Table,
    label: &mut [u32],
    numbers: &mut [u32],
    words: &mut [u64],
) -> Result<(), Refusal>
    ensures { Promise (call table.now label.old numbers.old words.old) label.new numbers.new words.new (said result) }
{
    refusal(table, label, numbers, words)?;
    find(table, label, numbers);
    memory::clear(table.n, table.sources.len(), numbers, words);
    Ok(())
}

// The tests of a call, before anything that was lent changes.
ghost use Rattle.std.specs.Prelude.{◌≡◌, length};
ghost use Rattle.graph.specs.Reasons.{said};
ghost use Rattle.graph.specs.Refusal.{table_refusal};
ghost use Rattle.decompose.specs.Accept.{lent_refusal, Chosen};

use graph::limits;
use graph::refusal::Refusal;
use graph::table::Table;
use machine::Order;
use pivot::chooser::Pivots;
use sweep::Method;
use waiting::Part;

// The first of 1, 2, 21, 3, 4, 22, 5, 6, 7 that applies, whatever the mask.
pub fn accept(
    table: &Table,
    label: &[u32],
    waiting: &[Part],
    numbers: &[u32],
    words: &[u64],
) -> Result<(), Refusal>
    ensures { said result ≡ lent_refusal (table_refusal table.now.n table.now.sources.now table.now.targets.now table.now.kinds.now) table.now.n (length table.now.sources.now) (length label.now) (length waiting.now) (length numbers.now) (length words.now) }
{
    table.check()?;
    if label.len() != table.n {
        return Err(Refusal::WrongLength);
    }
    if limits::lacking(table.n, table.sources.len(), numbers.len(), words.len()) {
        return Err(Refusal::MemoryShort);
    }
    if waiting.len() < table.n {
        return Err(Refusal::ListShort);
    }
    Ok(())
}

// What a call chooses.
#[derive(Clone, Copy, Debug, PartialEq, Eq)]
pub struct Choice {
    pub method: Method,
    pub order: Order,
    pub pivots: Pivots,
}

impl Choice {
    // The choice by its numbers: 8 where one of them is unknown.
    pub fn read(method: u32, order: u32, kind: u32) -> Result<Choice, Refusal>
        ensures { Chosen method order kind result }
    {
        Ok(Choice {
            method: Method::try_from(method)?,
            order: Order::try_from(order)?,
            pivots: Pivots::try_from(kind)?,
        })
    }
}

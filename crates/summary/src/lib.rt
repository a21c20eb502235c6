// The summary of a label column: own labels, shared labels, and the largest number that share one.
#![tactic(auto)]

pub mod answer;
mod blocks;
mod own;

ghost use Rattle.summary.specs.Promise.{Promise, summary_refusal};
ghost use Rattle.graph.specs.Reasons.{said};
ghost use Rattle.std.specs.Prelude.{◌≡◌};

use crate::answer::Summary;
use graph::limits;
use graph::refusal::Refusal;

// The first fault of the column.
fn check(n: usize, label: &[u32]) -> Result<(), Refusal>
    ensures { said result ≡ summary_refusal (record { n = n; label = label.now }) }
{
    if limits::MOST_VERTICES < n {
        return Err(Refusal::TooManyVertices);
    }
    if label.len() != n {
        return Err(Refusal::WrongLength);
    }
    if graph::table::outside(label, n) {
        return Err(Refusal::VertexOutside);
    }
    Ok(())
}

pub fn summary(n: usize, label: &[u32]) -> Result<Summary, Refusal>
    ensures { Promise (record { n = n; label = label.now }) result }
{
    check(n, label)?;
    let own = own::count(label);
    let totals = blocks::all(label);
    Ok(Summary {
        own,
        rings: totals.rings,
        largest: totals.largest,
    })
}

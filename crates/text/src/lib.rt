// The Matrix Market reader: it judges the whole text before it writes.
#![tactic(auto)]

ghost use Rattle.graph.specs.Limits.{most_vertices, most_edges};
ghost use Rattle.text.specs.Steps.{JudgeSaid};
ghost use Rattle.text.specs.Promise.{Promise};

mod entries;
mod header;

use crate::header::{Head, Limits};
use graph::limits;
use graph::refusal::Refusal;

// The vertices and the edges of a table.
#[derive(Clone, Copy, Debug, PartialEq, Eq)]
pub struct Size {
    pub n: usize,
    pub edges: usize,
}

// The whole text: its header, if its entries are right.
fn judge(text: &[u8], limits: Limits) -> Result<Head<'_>, Refusal>
    ensures { JudgeSaid limits text.now result }
{
    let head = header::head_of(text, limits)?;
    entries::check(head.rest, head.size)?;
    Ok(head)
}

pub fn read_within(
    text: &[u8],
    most_vertices: usize,
    most_edges: usize,
    sources: &mut [u32],
    targets: &mut [u32],
) -> Result<Size, Refusal>
    ensures { Promise (record { text = text.now; most_vertices = most_vertices; most_edges = most_edges; sources = sources.old; targets = targets.old }) result sources.new targets.new }
{
    let limits = Limits {
        most_vertices,
        most_edges,
        room: sources.len().min(targets.len()),
    };
    let head = judge(text, limits)?;
    entries::fill(head.rest, head.size, sources, targets);
    Ok(head.size)
}

// A text within the library's limits.
pub fn read(text: &[u8], sources: &mut [u32], targets: &mut [u32]) -> Result<Size, Refusal>
    ensures { Promise (record { text = text.now; most_vertices = most_vertices; most_edges = most_edges; sources = sources.old; targets = targets.old }) result sources.new targets.new }
{
    read_within(
        text,
        limits::MOST_VERTICES,
        limits::MOST_EDGES,
        sources,
        targets,
    )
}

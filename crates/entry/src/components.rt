// The labels of a small table, by the decomposer with pivot kind 0, order 0 and method 0, in memory of its own.
ghost use Rattle.std.specs.Prelude.{◌≡◌};
ghost use Rattle.graph.specs.Graph.{graph};
ghost use Rattle.graph.specs.Search.{labels};
ghost use Rattle.entry.specs.Steps.{LabelAsk};

use graph::limits;
use graph::table::Table;

// The labels of a table of at most 512 vertices and 4,096 edges. A text has no kinds: kind 0 for every edge.
pub fn labelled(n: usize, sources: &[u32], targets: &[u32], label: &mut [u32])
    requires { LabelAsk n sources.now targets.now label.old }
    ensures { label.new ≡ labels (graph n sources.now targets.now) }
{
    let kinds = [0u8; crate::MOST_EDGES];
    let mut numbers = [0u32; 14352];
    let mut words = [0u64; 48];
    let table = Table {
        n,
        sources,
        targets,
        kinds: &kinds[..sources.len()],
        mask: limits::FULL_MASK,
    };
    // Within these limits the decomposer refuses nothing.
    let _ = decompose::plain::plain(&table, label, &mut numbers, &mut words);
}

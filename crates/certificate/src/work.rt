// The stages: distances along both indexes, entries both ways, ranks. All of it in the working numbers.
ghost use Rattle.std.specs.Prelude.{◌+◌, ◌*◌, length};
ghost use Rattle.graph.specs.Table.{graph_of};
ghost use Rattle.certificate.specs.Work.{FindAsk, Found, CompleteAsk, Completed, WorkAsk, Worked};

use crate::entries;
use graph::table::Table;
use index::build;
use memory::layout::Direction;
use memory::writer::{IN_EDGES, OUT_EDGES};

// The distances from and to the labels; false if some vertex is not reached inside its class.
fn find(table: &Table, label: &[u32], w: &mut [u32], base: usize) -> bool
    requires { FindAsk (graph_of table.now) table.now.kinds.now label.now base w.old }
    ensures { Found (graph_of table.now) label.now base w.old w.new result }
{
    build::both(table, w);
    let n = table.n;
    let there = Direction { n, index: 0, base };
    if !classes::distances(w, there, label) {
        return false;
    }
    let back = Direction {
        n,
        index: n + 1 + table.sources.len(),
        base: base + n,
    };
    classes::distances(w, back, label)
}

// The entries both ways and the ranks; false if some vertex never goes.
fn complete(table: &Table, label: &[u32], w: &mut [u32], base: usize) -> bool
    requires { CompleteAsk (graph_of table.now) table.now.kinds.now label.now base w.old }
    ensures { Completed (graph_of table.now) label.now base w.old w.new result }
{
    let n = table.n;
    entries::entries(table, label, w, base, base + IN_EDGES * n);
    entries::entries(&table.turned(), label, w, base + n, base + OUT_EDGES * n);
    ranks::ranks(table, label, w, base)
}

// The certificate in its regions; false if the labels are not right.
pub fn work(table: &Table, label: &[u32], w: &mut [u32]) -> bool
    requires { WorkAsk (graph_of table.now) table.now.kinds.now label.now w.old }
    ensures { Worked (graph_of table.now) label.now (2 * (table.now.n + 1 + length table.now.sources.now)) w.old w.new result }
{
    if !classes::own_labels(label) {
        return false;
    }
    let base = 2 * (table.n + 1 + table.sources.len());
    if !find(table, label, w, base) {
        return false;
    }
    complete(table, label, w, base)
}

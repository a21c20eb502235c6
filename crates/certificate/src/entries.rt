// In-edges: for each vertex the smallest counted edge that enters it from one step nearer to its label.
ghost use Rattle.graph.specs.Table.{graph_of};
ghost use Rattle.certificate.specs.Offer.{OfferAsk, Offered, EntriesAsk, Entered};

use checker::NO_EDGE;
use graph::table::Table;

// Edge e becomes the entry of the vertex that it enters, if it counts and fits the distances, which stand in w from d on.
fn offer(table: &Table, label: &[u32], w: &mut [u32], d: usize, b: usize, e: usize)
    requires { OfferAsk (graph_of table.now) table.now.kinds.now label.now d b e w.old }
    ensures { Offered (graph_of table.now) label.now d b e w.old w.new }
{
    if !table.counts(e) {
        return;
    }
    let u = table.sources[e] as usize;
    let v = table.targets[e] as usize;
    if label[u] != label[v] {
        return;
    }
    if w[d + v] as usize != w[d + u] as usize + 1 {
        return;
    }
    w[b + v] = e as u32;
}

// The edges are offered, the last first: so the smallest that fits stays. Entries stand in w from b on.
pub fn entries(table: &Table, label: &[u32], w: &mut [u32], d: usize, b: usize)
    requires { EntriesAsk (graph_of table.now) table.now.kinds.now label.now d b w.old }
    ensures { Entered (graph_of table.now) label.now d b w.old w.new }
{
    memory::fill(w, b, table.n, NO_EDGE);
    // a copy stays in registers, where what is behind a reference is read again after each write to w
    let table = *table;
    for e in (0..table.sources.len()).rev() {
        offer(&table, label, w, d, b, e);
    }
}

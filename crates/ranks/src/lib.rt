// Ranks by peeling: a vertex goes when no edge that it waits for is left.
#![tactic(auto)]

ghost use Rattle.graph.specs.Table.{graph_of};
ghost use Rattle.memory.specs.Memory.{region};
ghost use Rattle.memory.specs.Writer.{in_edges};
ghost use Rattle.ranks.specs.Peel.{CountsAsk, Counted, FreeAsk, Freed, FreesAsk, Frees, RanksAsk, Ranked, RiseAsk, Risen, LeadAsk, LedBy, SomeInto, EveryInto, SettleAsk, AfterSettle, ScanAsk, AfterScan, PeelAsk, AfterPeel};

use graph::table::Table;
use index::build;
use memory::layout::Layout;
use memory::writer::{COUNTS, IN_EDGES, QUEUE, RANKS};

// The vertex that waits for edge e from u to v if it counts.
fn lead(w: &[u32], at: Layout, label: &[u32], u: usize, v: usize, e: usize) -> Option<usize>
    requires { LeadAsk at.n label.now at.base u v w.now }
    ensures { LedBy at.n label.now (region (in_edges at.n at.base) w.now) u v e result }
{
    if label[u] != label[v] {
        return Some(label[v] as usize);
    }
    let x = w[at.base + IN_EDGES * at.n + v] as usize;
    (x == e).then_some(v)
}

// How many counted edges each vertex waits for; place n has those that no vertex waits for, so that no branch is needed.
fn counts(table: &Table, label: &[u32], w: &mut [u32], base: usize)
    requires { CountsAsk (graph_of table.now) table.now.kinds.now label.now base w.old }
    ensures { Counted (graph_of table.now) label.now base w.old w.new }
{
    let at = Layout {
        n: table.n,
        m: table.sources.len(),
        base,
    };
    memory::fill(w, base + COUNTS * at.n, at.n + 1, 0);
    // a copy stays in registers, where what is behind a reference is read again after each write to w
    let table = *table;
    for e in 0..table.sources.len() {
        let u = table.sources[e] as usize;
        let v = table.targets[e] as usize;
        let t = lead(w, at, label, u, v, e).unwrap_or(at.n);
        let counts = table.counts(e);
        w[base + COUNTS * at.n + t] += u32::from(counts);
    }
}

// Vertex v joins the queue if it waits for nothing.
fn free(w: &mut [u32], at: Layout, v: usize, k: usize) -> usize
    requires { FreeAsk at.n at.base v k w.old }
    ensures { Freed at.n at.base v k w.old w.new result }
{
    if w[at.base + COUNTS * at.n + v] != 0 {
        return k;
    }
    w[at.base + QUEUE * at.n + k] = v as u32;
    k + 1
}

// The queue of what waits for nothing, and its length as a number: the queue stands in w, which is written, so no slice of it can be lent beside w.
fn frees(w: &mut [u32], at: Layout) -> usize
    requires { FreesAsk at.n at.base w.old }
    ensures { Frees at.n at.base at.n w.old w.new result }
{
    let mut k = 0;
    for v in 0..at.n {
        k = free(w, at, v, k);
    }
    k
}

// By how much an edge from u to v raises the rank.
fn rise(label: &[u32], u: usize, v: usize) -> u32
    requires { RiseAsk label.now u v }
    ensures { Risen label.now u v result }
{
    u32::from(label[u] != label[v])
}

// Edge e, which leaves u, goes: the vertex that waits for it is raised, and joins the queue if it waits for no other.
// Targets and labels stay side by side: a `&Table` for the targets would have each clause say `at.n ≡ table.now.n`.
fn settle(
    w: &mut [u32],
    at: Layout,
    targets: &[u32],
    label: &[u32],
    u: usize,
    e: usize,
    k: usize,
) -> usize
    requires { SomeInto at.n targets.now (λ g. SettleAsk g label.now at.base u e k w.old) }
    ensures { EveryInto at.n targets.now (λ g. AfterSettle g label.now at.base u e k w.old w.new result) }
{
    let v = targets[e] as usize;
    let Some(t) = lead(w, at, label, u, v, e) else {
        return k;
    };
    let x = w[at.base + RANKS * at.n + u] + rise(label, u, v);
    memory::raise(w, at.base + RANKS * at.n + t, x);
    w[at.base + COUNTS * at.n + t] -= 1;
    free(w, at, t, k)
}

// The counted edges that leave u go; their numbers stand at the places w[u] .. w[u + 1] - 1.
fn scan(w: &mut [u32], at: Layout, targets: &[u32], label: &[u32], u: usize, k0: usize) -> usize
    requires { SomeInto at.n targets.now (λ g. ScanAsk g label.now at.base u k0 w.old) }
    ensures { EveryInto at.n targets.now (λ g. AfterScan g label.now at.base u k0 w.old w.new result) }
{
    let mut k = k0;
    for j in w[u] as usize..w[u + 1] as usize {
        let e = w[at.n + 1 + j] as usize;
        k = settle(w, at, targets, label, u, e, k);
    }
    k
}

// The vertices of the queue are taken one after the other, with the counted edges that leave them. The queue's length.
fn peel(w: &mut [u32], at: Layout, targets: &[u32], label: &[u32], k0: usize) -> usize
    requires { SomeInto at.n targets.now (λ g. PeelAsk g label.now at.base k0 w.old) }
    ensures { EveryInto at.n targets.now (λ g. AfterPeel g label.now at.base k0 w.old w.new result) }
{
    let mut k = k0;
    let mut h = 0;
    // the queue grows meanwhile
    while h < k {
        let u = w[at.base + QUEUE * at.n + h] as usize;
        k = scan(w, at, targets, label, u, k);
        h += 1;
    }
    k
}

// The ranks; false if some vertex never goes. At the front of w the forward neighbours give way to the numbers of their edges.
pub fn ranks(table: &Table, label: &[u32], w: &mut [u32], base: usize) -> bool
    requires { RanksAsk (graph_of table.now) table.now.kinds.now label.now base w.old }
    ensures { Ranked (graph_of table.now) label.now base w.old w.new result }
{
    let at = Layout {
        n: table.n,
        m: table.sources.len(),
        base,
    };
    build::renumber(table, &mut w[..at.n + 1 + at.m]);
    memory::fill(w, base + RANKS * at.n, at.n, 0);
    counts(table, label, w, base);
    let h = frees(w, at);
    peel(w, at, table.targets, label, h) == at.n
}

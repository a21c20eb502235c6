// The five checks; check 4 is check 3 of the turned table.
ghost use Rattle.std.specs.Prelude.{◌≡◌, [], ◌<◌, length};
ghost use Rattle.graph.specs.Graph.{graph};
ghost use Rattle.graph.specs.Checker.{check1, check2, check3, check5, entry};
ghost use Rattle.graph.specs.Table.{graph_of};
ghost use Rattle.checker.specs.Contract.{label_and_rank, columns_of, fault_of, RankAsk, EntryAsk, VertexAsk, EdgeAsk, FaultAsk};

use crate::{Columns, NO_EDGE};
use graph::table::Table;

// Check 1: the label is at most v and is its own label.
pub fn labelled(label: &[u32], v: usize) -> bool
    requires { v < length label.now }
    ensures { result ≡ check1 (label_and_rank label.now []) v }
{
    let l = label[v] as usize;
    l <= v && label[l] as usize == l
}

// Check 2: the rank is below n and equals the label's rank.
pub fn ranked(n: usize, label: &[u32], rank: &[u32], v: usize) -> bool
    requires { RankAsk n label.now rank.now v }
    ensures { result ≡ check2 (graph n [] []) (label_and_rank label.now rank.now) v }
{
    let r = rank[v];
    (r as usize) < n && r == rank[label[v] as usize]
}

// Edge e counts and enters v from a vertex u of the same label, and v's distance is below n and one more than u's.
pub fn entry(table: &Table, label: &[u32], distance: &[u32], e: usize, v: usize) -> bool
    requires { EntryAsk (graph_of table.now) table.now.kinds.now label.now distance.now v }
    ensures { result ≡ entry (graph_of table.now) label.now distance.now e v }
{
    if table.sources.len() <= e {
        return false;
    }
    if !table.counts(e) {
        return false;
    }
    if table.targets[e] as usize != v {
        return false;
    }
    let u = table.sources[e] as usize;
    if label[u] != label[v] {
        return false;
    }
    let d = distance[v] as usize;
    d < table.n && d == distance[u] as usize + 1
}

// Check 3: a vertex that is its own label has no edge and distance 0, any other has an entry.
pub fn entered(table: &Table, label: &[u32], edge: &[u32], distance: &[u32], v: usize) -> bool
    requires { VertexAsk (graph_of table.now) table.now.kinds.now label.now edge.now distance.now v }
    ensures { result ≡ check3 (graph_of table.now) label.now edge.now distance.now v }
{
    if label[v] as usize != v {
        return entry(table, label, distance, edge[v] as usize, v);
    }
    edge[v] == NO_EDGE && distance[v] == 0
}

// Check 5: a counted edge between different labels leads to a greater rank.
pub fn rises(table: &Table, label: &[u32], rank: &[u32], e: usize) -> bool
    requires { EdgeAsk (graph_of table.now) table.now.kinds.now label.now rank.now e }
    ensures { result ≡ check5 (graph_of table.now) (label_and_rank label.now rank.now) e }
{
    let counts = table.counts(e);
    if !counts {
        return true;
    }
    let u = table.sources[e] as usize;
    let v = table.targets[e] as usize;
    label[u] == label[v] || rank[u] < rank[v]
}

// The first of checks 1 to 4 that v fails.
pub fn fault(table: &Table, columns: &Columns, v: usize) -> Option<u32>
    requires { FaultAsk (graph_of table.now) table.now.kinds.now (columns_of columns.now) v }
    ensures { result ≡ fault_of (graph_of table.now) (columns_of columns.now) v }
{
    if !labelled(columns.label, v) {
        return Some(1);
    }
    if !ranked(table.n, columns.label, columns.rank, v) {
        return Some(2);
    }
    if !entered(
        table,
        columns.label,
        columns.in_edge,
        columns.in_distance,
        v,
    ) {
        return Some(3);
    }
    let turned = table.turned();
    if !entered(
        &turned,
        columns.label,
        columns.out_edge,
        columns.out_distance,
        v,
    ) {
        return Some(4);
    }
    None
}

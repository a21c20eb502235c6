// Distances from u by levels, and the walk back from v along them.
ghost use Rattle.graph.specs.Table.{graph_of};
ghost use Rattle.paths.specs.Walk.{SomeFrom, EveryFrom, FindAsk, Prepared, FirstAsk, First, WalkAsk, Walked, SettleAsk, Settled};

use graph::refusal::Refusal;
use graph::table::Table;
use index::build;
use memory::layout::Direction;
use paint::distances;

// The neighbours, behind them the counted edges' numbers by target, and behind both as colours the distances from u: n + 1 is no distance.
pub fn find(table: &Table, u: usize, w: &mut [u32])
    requires { FindAsk (graph_of table.now) table.now.kinds.now u w.old }
    ensures { Prepared (graph_of table.now) u w.old w.new }
{
    build::one(table, w);
    let k = table.n + 1 + table.sources.len();
    let b = 2 * k;
    build::numbers(&table.turned(), &mut w[k..b]);
    let far = (table.n + 1) as u32;
    memory::fill(w, b, table.n, far);
    let along = Direction {
        n: table.n,
        index: 0,
        base: b,
    };
    distances::measure(w, along, u, far);
}

// The place of the first of the edges that comes from a vertex of the colour d, or their number.
fn first(sources: &[u32], edges: &[u32], colours: &[u32], d: usize) -> usize
    requires { FirstAsk sources.now edges.now colours.now }
    ensures { First sources.now edges.now colours.now d result }
{
    // by a `for`, not by `position`: so the order of the looks is a fact of its own, at which a look from the last edge back is refused
    for (i, e) in edges.iter().enumerate() {
        let x = sources[*e as usize] as usize;
        if colours[x] as usize == d {
            return i;
        }
    }
    edges.len()
}

// Back from v, each time by the smallest edge from one step nearer; the numbers of a vertex's edges stand in rising order.
fn back(table: &Table, v: usize, w: &[u32], d0: usize, room: &mut [u32])
    requires { SomeFrom table.now.n table.now.sources.now (λ g u. WalkAsk g u v d0 w.now room.old) }
    ensures { EveryFrom table.now.n table.now.sources.now (λ g u. WalkAsk g u v d0 w.now room.old → Walked g u v d0 room.old room.new) }
{
    let sources = table.sources;
    let reverse = table.n + 1 + sources.len();
    let numbers = reverse + table.n + 1;
    let colours = &w[2 * reverse..];
    let mut x = v;
    for d in (0..d0).rev() {
        let s = w[reverse + x] as usize;
        let t = w[reverse + x + 1] as usize;
        let edges = &w[numbers + s..numbers + t];
        let e = edges[first(sources, edges, colours, d)];
        room[d] = e;
        x = sources[e as usize] as usize;
    }
}

// The answer from the distances: 11, 12, or the path.
pub fn settle(table: &Table, v: usize, w: &[u32], room: &mut [u32]) -> Result<usize, Refusal>
    requires { SomeFrom table.now.n table.now.sources.now (λ g u. SettleAsk g u v w.now) }
    ensures { EveryFrom table.now.n table.now.sources.now (λ g u. SettleAsk g u v w.now → Settled g u v room.old room.new result) }
{
    let d = w[2 * (table.n + 1 + table.sources.len()) + v] as usize;
    if table.n <= d {
        return Err(Refusal::NoPath);
    }
    if room.len() < d {
        return Err(Refusal::RoomShort);
    }
    back(table, v, w, d, room);
    Ok(d)
}

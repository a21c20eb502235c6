// A search in one direction: sets become colours, the search core paints them, and what was painted becomes a set.
ghost use Rattle.std.specs.Prelude.{◌+◌};
ghost use Rattle.graph.specs.Graph.{turned};
ghost use Rattle.graph.specs.Table.{graph_of};
ghost use Rattle.graph.specs.Arrows.{SomeOf, EveryOf};
ghost use Rattle.graph.specs.Sets.{bit};
ghost use Rattle.index.specs.Build.{One};
ghost use Rattle.paint.specs.Colours.{Coloured};
ghost use Rattle.sets.specs.Sizes.{Words};
ghost use Rattle.reach.specs.Steps.{ColourAsk, ChooseAsk, Chosen, BeginAsk, BegunBelow, GatherAsk, Gathered, NeighboursAsk, RunAsk, Found};

use graph::table::Table;
use index::build;
use memory::layout::Direction;
use paint::Map;

// The colours: a permitted vertex becomes a reached one; 0 is not permitted.
const PERMITTED: u32 = 1;

const REACHED: u32 = 2;

const REACHING: Map = Map {
    a: PERMITTED,
    a2: REACHED,
    c: PERMITTED,
    c2: REACHED,
};

// The colour of a vertex is its bit in the permitted set.
fn colour(w: &mut [u32], along: Direction, permitted: &[u64])
    requires { ColourAsk along.n along.base permitted.now w.old }
    ensures { Coloured along.n along.base (bit permitted.now) w.old w.new }
{
    for v in 0..along.n {
        w[along.base + v] = u32::from(sets::has(permitted, v));
    }
}

// The permitted starts.
fn choose(n: usize, starts: &[u64], permitted: &[u64], r: &mut [u64])
    requires { ChooseAsk n starts.now permitted.now r.old }
    ensures { Chosen n starts.now permitted.now r.old r.new }
{
    memory::zero_words(r, starts.len());
    sets::join(r, starts);
    sets::meet(r, permitted);
    sets::clip(r, n);
}

// The members of the set are painted and queued. The queue's length, as a number: no slice of w can be lent beside w, which is written.
fn begin(w: &mut [u32], along: Direction, r: &[u64]) -> usize
    requires { BeginAsk along.n along.base r.now w.old }
    ensures { BegunBelow along.n along.n along.base r.now w.old w.new result }
{
    let mut k = 0;
    for x in 0..along.n {
        if sets::has(r, x) {
            k = paint::visit(w, along, x, REACHING, k);
        }
    }
    k
}

// The first k of the queue are added to the set.
fn gather(w: &[u32], along: Direction, k: usize, r: &mut [u64])
    requires { GatherAsk (along.base + along.n) k w.now r.old }
    ensures { Gathered (along.base + along.n) k w.now r.old r.new }
{
    let queue = along.base + along.n;
    for v in &w[queue..queue + k] {
        sets::add(r, *v as usize);
    }
}

// The index in the direction of the search, at the front of w: backward, the table is turned.
pub fn neighbours(table: &Table, backward: bool, w: &mut [u32])
    requires { NeighboursAsk (graph_of table.now) table.now.kinds.now w.old }
    ensures { One (turned backward (graph_of table.now)) w.old w.new }
{
    if backward {
        build::one(&table.turned(), w);
    } else {
        build::one(table, w);
    }
}

// The search along the index at the front of w: r becomes the set of what is reached. The number of counted edges looked at.
// n and m alone, not the table: the index stands for it from here on.
pub fn run(
    w: &mut [u32],
    n: usize,
    m: usize,
    starts: &[u64],
    permitted: &[u64],
    r: &mut [u64],
) -> usize
    requires { SomeOf n m (λ g. RunAsk g starts.now permitted.now w.old r.old) }
    ensures fit { Words r.new }
    ensures found { EveryOf n m (λ g. RunAsk g starts.now permitted.now w.old r.old → Found g starts.now permitted.now w.old r.old w.new r.new result) }
{
    let along = Direction {
        n,
        index: 0,
        base: n + 1 + m,
    };
    colour(w, along, permitted);
    choose(n, starts, permitted, r);
    let k = begin(w, along, r);
    let s = paint::spread(w, along, REACHING, k);
    gather(w, along, s.k, r);
    s.edges
}

// The search core. It paints colours, which stand in w from the base of a direction on, one a vertex; behind them stands the queue.
// A map of colours says where a search may go: 'permitted' is 'the map changes this colour'.
#![tactic(auto)]

ghost use Rattle.std.specs.Prelude.{◌≡◌, ◌+◌};
ghost use Rattle.graph.specs.Arrows.{Some, Every};
ghost use Rattle.graph.specs.Parts.{only};
ghost use Rattle.paint.specs.Colours.{paint_of};
ghost use Rattle.paint.specs.Paint.{VisitAsk, Visited, ScanAsk, Scanned, LevelAsk, Levelled, Spread, StartAsk, Searched};

use memory::layout::Direction;

pub mod distances;

// The queue's new length, and the number of edges looked at.
#[derive(Clone, Copy)]
pub struct Step {
    pub k: usize,
    pub edges: usize,
}

// The colour a becomes a2, c becomes c2, any other stays.
#[derive(Clone, Copy)]
pub struct Map {
    pub a: u32,
    pub a2: u32,
    pub c: u32,
    pub c2: u32,
}

impl Map {
    // The new colour of what has the colour y.
    pub fn of(self, y: u32) -> u32
        ensures { result ≡ paint_of self y }
    {
        if y == self.a {
            self.a2
        } else if y == self.c {
            self.c2
        } else {
            y
        }
    }
}

// Vertex x is looked at: where its colour is to change, it changes and x goes to the queue's end. The queue's new length.
pub fn visit(w: &mut [u32], along: Direction, x: usize, map: Map, k: usize) -> usize
    requires { VisitAsk (paint_of map) along.n along.base x w.old k }
    ensures { Visited (paint_of map) along.n along.base x w.old k w.new result }
{
    let y = w[along.base + x];
    let z = map.of(y);
    if z == y {
        return k;
    }
    w[along.base + x] = z;
    w[along.base + along.n + k] = x as u32;
    k + 1
}

// The neighbours at the places s .. t - 1 of the neighbours, which stand in w behind the offsets, are looked at.
fn scan(w: &mut [u32], along: Direction, s: usize, t: usize, map: Map, k0: usize) -> usize
    requires { ScanAsk (paint_of map) along.n (along.index + along.n + 1) along.base s t w.old k0 }
    ensures { Scanned (paint_of map) along.n (along.index + along.n + 1) along.base s t w.old k0 w.new result }
{
    let mut k = k0;
    for i in s..t {
        let x = w[along.index + along.n + 1 + i] as usize;
        k = visit(w, along, x, map, k);
    }
    k
}

// One level: the edges of the vertices at the places h .. k - 1 of the queue are looked at.
pub fn level(w: &mut [u32], along: Direction, map: Map, h: usize, k: usize) -> Step
    requires { Some along.n (λ g. LevelAsk g (paint_of map) along.index along.base h w.old k) }
    ensures { Every along.n (λ g. LevelAsk g (paint_of map) along.index along.base h w.old k → Levelled g (paint_of map) along.base h k w.old k w.new result.k result.edges) }
{
    let mut q = k;
    let mut edges: usize = 0;
    for i in h..k {
        let u = w[along.base + along.n + i] as usize;
        let s = w[along.index + u] as usize;
        let t = w[along.index + u + 1] as usize;
        q = scan(w, along, s, t, map, q);
        edges += t - s;
    }
    Step { k: q, edges }
}

// The search goes on from the k0 vertices of the queue, level by level, until the queue is used up.
pub fn spread(w: &mut [u32], along: Direction, map: Map, k0: usize) -> Step
    requires { Some along.n (λ g. LevelAsk g (paint_of map) along.index along.base 0 w.old k0) }
    ensures { Every along.n (λ g. LevelAsk g (paint_of map) along.index along.base 0 w.old k0 → Spread g (paint_of map) along.base w.old k0 result.k w.new result.k result.edges) }
{
    let mut h = 0;
    let mut k = k0;
    let mut edges: usize = 0;
    while h < k {
        let s = level(w, along, map, h, k);
        h = k;
        k = s.k;
        edges += s.edges;
    }
    Step { k, edges }
}

// What p reaches through colours that change is painted, and the queue ends holding it.
pub fn search(w: &mut [u32], along: Direction, p: usize, map: Map) -> Step
    requires { Some along.n (λ g. StartAsk g (paint_of map) along.index along.base p w.old) }
    ensures { Every along.n (λ g. StartAsk g (paint_of map) along.index along.base p w.old → Searched g (paint_of map) along.base (only p) w.old w.new result.k result.edges) }
{
    let k = visit(w, along, p, map, 0);
    spread(w, along, map, k)
}

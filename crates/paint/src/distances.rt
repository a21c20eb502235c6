// Distances by levels: what a search reaches gets its distance as its colour.
ghost use Rattle.graph.specs.Arrows.{Some, Every};
ghost use Rattle.graph.specs.Parts.{only};
ghost use Rattle.paint.specs.Distances.{Measured, Queued, Has, HasOr, RoundsAsk, MeasureAsk};

use crate::Map;
use memory::layout::Direction;

// Level after level from the k0 starts of the queue: what has the colour a gets its distance from them. The queue's length.
pub fn rounds(w: &mut [u32], along: Direction, a: u32, k0: usize) -> usize
    requires { Some along.n (λ g. RoundsAsk g a along.index along.base w.old k0) }
    ensures { Every along.n (λ g. RoundsAsk g a along.index along.base w.old k0 → Measured g along.base (HasOr a along.n along.base w.old k0) (Queued along.n along.base w.old k0) w.old w.new result) }
{
    let mut h = 0;
    let mut k = k0;
    let mut d: u32 = 0;
    while h < k {
        d += 1;
        let map = Map {
            a,
            a2: d,
            c: a,
            c2: d,
        };
        let s = crate::level(w, along, map, h, k);
        h = k;
        k = s.k;
    }
    k
}

// What p reaches through the colour a, which p must have itself, gets its distance from p. The queue's length.
pub fn measure(w: &mut [u32], along: Direction, p: usize, a: u32) -> usize
    requires { Some along.n (λ g. MeasureAsk g a along.index along.base p w.old) }
    ensures { Every along.n (λ g. MeasureAsk g a along.index along.base p w.old → Measured g along.base (Has a along.base w.old) (only p) w.old w.new result) }
{
    let map = Map {
        a,
        a2: 0,
        c: a,
        c2: 0,
    };
    let k = crate::visit(w, along, p, map, 0);
    rounds(w, along, a, k)
}

// Cursors: one for each vertex and direction; it goes along the vertex's neighbours once, past those that are not in the part.
ghost use Rattle.std.specs.Prelude.{◌+◌};
ghost use Rattle.graph.specs.Arrows.{SomeOf, EveryOf};
ghost use Rattle.prune.specs.Cursor.{FindAsk, Found, LookAsk, Looked, AdvanceAsk, Advanced, TiedAsk, Tied};

use memory::layout::{Direction, Layout};

// The first place from i0 on, below t, whose neighbour has the colour q; t if there is none.
fn find(w: &[u32], along: Direction, q: u32, i0: usize, t: usize) -> usize
    requires { FindAsk (along.index + along.n + 1) along.base i0 t w.now }
    ensures { Found (along.index + along.n + 1) along.base q i0 t w.now result }
{
    let others = along.index + along.n + 1;
    // a `for`, not `find`: its closure would index w and ask for a `requires` of its own, which is no plainer
    for i in i0..t {
        let x = w[others + i] as usize;
        if w[along.base + x] == q {
            return i;
        }
    }
    t
}

// v's cursor, at cb + v, goes to the first edge from the place at sb + v on that leads to the colour q. Whether there is one.
fn look(w: &mut [u32], along: Direction, cb: usize, sb: usize, v: usize, q: u32) -> bool
    requires { LookAsk along.n along.index cb sb along.base v w.old }
    ensures { Looked along.n along.index cb sb along.base v q w.old w.new result }
{
    let t = w[along.index + v + 1] as usize;
    let i = find(w, along, q, w[sb + v] as usize, t);
    w[cb + v] = i as u32;
    i < t
}

// v's cursor, at cursors + v, goes on to the first edge that leads to the colour q. Whether there is one.
pub fn advance(w: &mut [u32], along: Direction, cursors: usize, v: usize, q: u32) -> bool
    requires { AdvanceAsk along.n along.index cursors along.base v w.old }
    ensures { Advanced along.n along.index cursors along.base v q w.old w.new result }
{
    look(w, along, cursors, cursors, v, q)
}

// Whether an edge of the part q leaves v, and one enters it. The looks begin at the places at ob + v and ib + v.
pub fn tied(w: &mut [u32], at: Layout, v: usize, ob: usize, ib: usize, q: u32) -> bool
    requires { SomeOf at.n at.m (λ g. TiedAsk g at.base v ob ib q w.old) }
    ensures { EveryOf at.n at.m (λ g. TiedAsk g at.base v ob ib q w.old → Tied g at.base v q w.old w.new result) }
{
    look(w, at.forward(), at.leaving(), ob, v, q) && look(w, at.backward(), at.entering(), ib, v, q)
}

// What goes stands in a queue, and only neighbours of what went are examined again.
// The queue stands in w, and no slice of it can be lent beside w: its length k goes along as a number.
ghost use Rattle.graph.specs.Arrows.{SomeOf, EveryOf};
ghost use Rattle.prune.specs.Trim.{TrimAsk};
ghost use Rattle.prune.specs.Prune.{ExamineAsk, Examined, NearAsk, Near, BesideAsk, Beside, DrainAsk, Drained, Passed};

use crate::cursor;
use memory::layout::{Direction, Layout};

// v goes, if it is still in the part q and can be trimmed; ob and ib are as in cursor::tied. How many have gone.
fn examine(w: &mut [u32], at: Layout, v: usize, ob: usize, ib: usize, q: u32, k: usize) -> usize
    requires { SomeOf at.n at.m (λ g. ExamineAsk g at.base v ob ib q k w.old) }
    ensures { EveryOf at.n at.m (λ g. ExamineAsk g at.base v ob ib q k w.old → Examined g at.base v q k w.old w.new result) }
{
    if w[at.base + v] != q || cursor::tied(w, at, v, ob, ib, q) {
        return k;
    }
    w[at.base + v] = v as u32;
    w[at.base + at.n + k] = v as u32;
    k + 1
}

// The neighbours of u in one direction are examined, from where their cursors stand. How many have gone.
fn around(w: &mut [u32], at: Layout, along: Direction, u: usize, q: u32, k0: usize) -> usize
    requires { SomeOf at.n at.m (λ g. NearAsk g along.index at.base u q k0 w.old) }
    ensures { EveryOf at.n at.m (λ g. NearAsk g along.index at.base u q k0 w.old → Near g along.index at.base u q k0 w.old w.new result) }
{
    let leaving = at.leaving();
    let entering = at.entering();
    let i0 = w[along.index + u] as usize;
    let t = w[along.index + u + 1] as usize;
    let mut k = k0;
    for i in i0..t {
        let x = w[along.index + at.n + 1 + i] as usize;
        k = examine(w, at, x, leaving, entering, q, k);
    }
    k
}

// The neighbours of u, which has gone, are examined.
fn beside(w: &mut [u32], at: Layout, u: usize, q: u32, k: usize) -> usize
    requires { SomeOf at.n at.m (λ g. BesideAsk g at.base u q k w.old) }
    ensures { EveryOf at.n at.m (λ g. BesideAsk g at.base u q k w.old → Beside g at.base u q k w.old w.new result) }
{
    let forward = at.forward();
    let backward = at.backward();
    let k1 = around(w, at, forward, u, q, k);
    around(w, at, backward, u, q, k1)
}

// The neighbours of all that has gone are examined, until no more goes.
pub fn drain(w: &mut [u32], at: Layout, q: u32, k0: usize) -> usize
    requires { SomeOf at.n at.m (λ g. DrainAsk g at.base q k0 w.old) }
    ensures { EveryOf at.n at.m (λ g. DrainAsk g at.base q k0 w.old → Drained g at.base q k0 w.old w.new result) }
{
    let mut h = 0;
    let mut k = k0;
    // The queue grows while it is gone along.
    while h < k {
        let u = w[at.base + at.n + h] as usize;
        k = beside(w, at, u, q, k);
        h += 1;
    }
    k
}

// Every vertex of the part q, whose chain begins at place h, is examined once, from its first edges on.
pub fn pass(w: &mut [u32], at: Layout, h: usize, q: u32) -> usize
    requires { SomeOf at.n at.m (λ g. TrimAsk g at.base h q w.old) }
    ensures { EveryOf at.n at.m (λ g. TrimAsk g at.base h q w.old → Passed g at.base q w.old w.new result) }
{
    let forward = at.forward().index;
    let backward = at.backward().index;
    let order = at.order();
    let chains = at.chains();
    let mut i = h;
    let mut k = 0;
    // Along a chain: each place says which comes next.
    while i < at.n {
        let v = w[order + i] as usize;
        let y = w[chains + i] as usize;
        k = examine(w, at, v, forward, backward, q, k);
        i = y;
    }
    k
}

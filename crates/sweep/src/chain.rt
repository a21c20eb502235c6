// A part is swept along its chain of places: pivots are taken until nothing of its colour is left.
ghost use Rattle.graph.specs.Arrows.{SomeOf, EveryOf};
ghost use Rattle.sweep.specs.Methods.{slicing_of};
ghost use Rattle.sweep.specs.Taken.{TakeAsk, Taken};
ghost use Rattle.sweep.specs.Sweep.{TurnAsk, Turned, SweepAsk, Swept};

use crate::Method;
use memory::layout::Layout;

// The pivot p is taken in the part q. The first colour that no part has then.
fn take(w: &mut [u32], at: Layout, p: usize, q: u32, top: usize, method: Method) -> usize
    requires { SomeOf at.n at.m (λ g. TakeAsk g (slicing_of method) at.base p q top w.old) }
    ensures { EveryOf at.n at.m (λ g. TakeAsk g (slicing_of method) at.base p q top w.old → Taken g (slicing_of method) at.base p q top w.old w.new result) }
{
    match method {
        Method::Split => {
            split::split(w, at, p, q, top as u32);
            top + 2
        }
        Method::Slice => slices::slice::slice(w, at, p, q, top),
    }
}

// The vertex at place i is a pivot, where it still has the colour q. The first colour that no part has then.
fn turn(w: &mut [u32], at: Layout, i: usize, q: u32, top: usize, method: Method) -> usize
    requires { SomeOf at.n at.m (λ g. TurnAsk g (slicing_of method) at.base i q top w.old) }
    ensures { EveryOf at.n at.m (λ g. TurnAsk g (slicing_of method) at.base i q top w.old → Turned g (slicing_of method) at.base i q top w.old w.new result) }
{
    let p = w[at.order() + i] as usize;
    if w[at.base + p] != q {
        return top;
    }
    take(w, at, p, q, top, method)
}

// The part q, whose chain begins at place h, is swept by pivots of kind 0 or 2. The first colour that no part has then.
pub fn sweep(w: &mut [u32], at: Layout, h: usize, q: u32, top0: usize, slicing: u32) -> usize
    requires { SomeOf at.n at.m (λ g. SweepAsk g slicing at.base h q top0 w.old) }
    ensures { EveryOf at.n at.m (λ g. SweepAsk g slicing at.base h q top0 w.old → Swept g slicing at.base q 0 0 top0 w.old w.new result) }
{
    let method = Method::of(slicing);
    let chains = at.chains();
    let mut top = top0;
    let mut i = h;
    // a `while` along the chain, whose places are in no range
    while i < at.n {
        let y = w[chains + i] as usize;
        top = turn(w, at, i, q, top, method);
        i = y;
    }
    top
}

// A part is swept by drawn pivots. What remains of it is kept as bits, so that the vertex at a place is found by counts of ones.
ghost use Rattle.std.specs.Prelude.{◌≡◌};
ghost use Rattle.graph.specs.Arrows.{SomeOf, EveryOf};
ghost use Rattle.sweep.specs.Methods.{slicing_of};
ghost use Rattle.sweep.specs.Drawn.{PickAsk, Picked, DrawAsk, Drawn, RunAsk, DrawnAsk, SweptDrawn};

use crate::{Method, Outcome, set};
use memory::layout::Layout;
use paint::Map;

// What is left of a part: the generator's state, the number of its vertices, and the first colour that no part has.
#[derive(Clone, Copy)]
struct Rest {
    state: u32,
    left: usize,
    top: usize,
}

// `split::split`, where the set loses what each search has painted. Not one function with it: a trait for a search with a set or with none is longer, and `chain` has no set to pass.
// A closure is no plainer: it would write the memory and the set, and its contract would need a relation for both.
fn split(w: &mut [u32], words: &mut [u64], at: Layout, p: usize, q: u32, now: Rest) -> Rest
    requires { SomeOf at.n at.m (λ g. PickAsk g 0 at.base p q now.top w.old words.old now.left) }
    ensures picked { EveryOf at.n at.m (λ g. PickAsk g 0 at.base p q now.top w.old words.old now.left → Picked g 0 at.base p q now.top w.old w.new words.new result.left result.top) }
    ensures state { result.state ≡ now.state }
{
    let f = now.top as u32;
    let reached = Map {
        a: q,
        a2: f,
        c: q,
        c2: f,
    };
    let reaching = Map {
        a: q,
        a2: f + 1,
        c: f,
        c2: f + 2,
    };
    let s = set::search(w, words, at.forward(), p, reached, now.left);
    let t = set::search(w, words, at.backward(), p, reaching, s.left);
    split::label(w, at, t.k, f + 2);
    Rest {
        left: t.left,
        top: now.top + 2,
        ..now
    }
}

// `slices::slice::slice`, where the set loses what the search has painted; two functions for the same reason.
fn slice(w: &mut [u32], words: &mut [u64], at: Layout, p: usize, q: u32, now: Rest) -> Rest
    requires { SomeOf at.n at.m (λ g. PickAsk g 1 at.base p q now.top w.old words.old now.left) }
    ensures picked { EveryOf at.n at.m (λ g. PickAsk g 1 at.base p q now.top w.old words.old now.left → Picked g 1 at.base p q now.top w.old w.new words.new result.left result.top) }
    ensures state { result.state ≡ now.state }
{
    let r = (5 * at.n + 5) as u32;
    let reached = Map {
        a: q,
        a2: r,
        c: q,
        c2: r,
    };
    let s = set::search(w, words, at.forward(), p, reached, now.left);
    slices::seeds::mark(w, at, p, r, 0);
    Rest {
        left: s.left,
        top: slices::slice::cuts(w, at, r, now.top),
        ..now
    }
}

// The pivot p is taken in the part q, of which the set is what is left.
fn take(
    w: &mut [u32],
    words: &mut [u64],
    at: Layout,
    p: usize,
    q: u32,
    now: Rest,
    method: Method,
) -> Rest
    requires { SomeOf at.n at.m (λ g. PickAsk g (slicing_of method) at.base p q now.top w.old words.old now.left) }
    ensures picked { EveryOf at.n at.m (λ g. PickAsk g (slicing_of method) at.base p q now.top w.old words.old now.left → Picked g (slicing_of method) at.base p q now.top w.old w.new words.new result.left result.top) }
    ensures state { result.state ≡ now.state }
{
    match method {
        Method::Split => split(w, words, at, p, q, now),
        Method::Slice => slice(w, words, at, p, q, now),
    }
}

// One draw: the pivot is the vertex drawn from what is left of the part q.
fn turn(w: &mut [u32], words: &mut [u64], at: Layout, q: u32, now: Rest, method: Method) -> Rest
    requires { SomeOf at.n at.m (λ g. DrawAsk g (slicing_of method) at.base q now.top w.old words.old now.left) }
    ensures { EveryOf at.n at.m (λ g. DrawAsk g (slicing_of method) at.base q now.top w.old words.old now.left → Drawn g (slicing_of method) at.base q now.state now.top w.old w.new words.new result.state result.left result.top) }
{
    let s = pivot::chooser::next(now.state);
    let p = pivot::place::select(words, at.n, s as usize % now.left);
    take(w, words, at, p, q, Rest { state: s, ..now }, method)
}

// Draws, until nothing is left of the part q.
fn run(w: &mut [u32], words: &mut [u64], at: Layout, q: u32, begun: Rest, method: Method) -> Outcome
    requires { SomeOf at.n at.m (λ g. RunAsk g (slicing_of method) at.base q begun.top w.old words.old begun.left) }
    ensures { EveryOf at.n at.m (λ g. RunAsk g (slicing_of method) at.base q begun.top w.old words.old begun.left → SweptDrawn g (slicing_of method) at.base q begun.state begun.top w.old w.new words.new result.state result.draws result.top) }
{
    let mut now = begun;
    let mut draws: usize = 0;
    // a `while`, since what a draw leaves is in no range
    while 0 < now.left {
        now = turn(w, words, at, q, now, method);
        draws += 1;
    }
    Outcome {
        state: now.state,
        draws,
        top: now.top,
    }
}

// The part q, whose chain begins at place h, is swept by pivots of kind 1.
pub fn sweep(
    w: &mut [u32],
    words: &mut [u64],
    at: Layout,
    h: usize,
    q: u32,
    state: u32,
    top: usize,
    slicing: u32,
) -> Outcome
    requires { SomeOf at.n at.m (λ g. DrawnAsk g slicing at.base h q top w.old words.old) }
    ensures { EveryOf at.n at.m (λ g. DrawnAsk g slicing at.base h q top w.old words.old → SweptDrawn g slicing at.base q state top w.old w.new words.new result.state result.draws result.top) }
{
    let method = Method::of(slicing);
    let left = set::mark(w, words, at, h, q);
    run(w, words, at, q, Rest { state, left, top }, method)
}

// A part is divided: trimmed (method 0) or prepared (method 1), swept by pivots that the chooser chooses, and its new parts handed out.
ghost use Rattle.graph.specs.Arrows.{SomeOf, EveryOf};
ghost use Rattle.sweep.specs.Methods.{slicing_of};
ghost use Rattle.parts.specs.Divide.{MethodAsk, MakeAsk, Made, Division};

use crate::share;
use memory::layout::Layout;
use pivot::chooser::Chooser;
use sweep::{Method, Outcome};

// What the sweep came to, and the number of pending parts.
#[derive(Clone, Copy, Debug, PartialEq, Eq)]
pub struct Divided {
    pub outcome: Outcome,
    pub children: usize,
}

// The part q, whose first place is h, is made ready: method 1 sets cursors and marks, method 0 trims the part.
fn make(w: &mut [u32], at: Layout, h: usize, q: u32, method: Method)
    requires { SomeOf at.n at.m (λ g. MakeAsk g at.base h q w.old) }
    ensures { EveryOf at.n at.m (λ g. MakeAsk g at.base h q w.old → Made g (slicing_of method) at.base q w.old w.new) }
{
    match method {
        Method::Split => {
            prune::prune(w, at, h, q);
        }
        Method::Slice => slices::prepare(w, at),
    }
}

// The part whose first place is h is divided. No struct holds `top` and `slicing`: the part and `top` change, so each call would make it anew. The first places of its new parts stand from base + 8 n + 2 on.
pub fn divide(
    w: &mut [u32],
    words: &mut [u64],
    at: Layout,
    h: usize,
    chooser: Chooser,
    top: usize,
    slicing: u32,
) -> Divided
    requires { SomeOf at.n at.m (λ g. MethodAsk g slicing at.base h top w.old words.old) }
    ensures { EveryOf at.n at.m (λ g. MethodAsk g slicing at.base h top w.old words.old → Division g slicing at.base chooser.kind chooser.state h top w.old words.old w.new words.new result.outcome.state result.outcome.draws result.outcome.top result.children) }
{
    let v = w[at.order() + h] as usize;
    let q = w[at.base + v];
    make(w, at, h, q, Method::of(slicing));
    let outcome = sweep::sweep(w, words, at, h, q, chooser, top, slicing);
    let children = share::share(w, at, top, outcome.top, h);
    Divided { outcome, children }
}

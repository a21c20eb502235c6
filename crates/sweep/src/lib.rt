// A part is swept by pivots of a kind, of either method.
#![tactic(auto)]

ghost use Rattle.std.specs.Prelude.{◌≡◌, cond, eqb};
ghost use Rattle.graph.specs.Arrows.{SomeOf, EveryOf};
ghost use Rattle.sweep.specs.Kind.{KindAsk, KindSwept};
ghost use Rattle.sweep.specs.Methods.{slicing_of, Reads};

use graph::refusal::Refusal;
use memory::layout::Layout;
use pivot::chooser::Chooser;

pub mod chain;
pub mod drawn;
pub mod set;

// What a pivot does to its part: method 0 splits it, method 1 cuts what the pivot reaches into slices.
#[derive(Clone, Copy, Debug, PartialEq, Eq)]
pub enum Method {
    Split,
    Slice,
}

impl TryFrom<u32> for Method {
    type Error = Refusal;

    ghost try_from_gives = { Reads };

    fn try_from(method: u32) -> Result<Method, Refusal> {
        match method {
            0 => Ok(Method::Split),
            1 => Ok(Method::Slice),
            _ => Err(Refusal::UnknownChoice),
        }
    }
}

impl Method {
    // The method that a number stands for where none is refused: 1 slices, and every other number splits.
    pub fn of(slicing: u32) -> Method
        ensures { slicing_of result ≡ cond (eqb slicing 1) 1 0 }
    {
        match slicing {
            1 => Method::Slice,
            _ => Method::Split,
        }
    }
}

// The chooser's state and the draws made, and the first colour that no part has.
#[derive(Clone, Copy, Debug, PartialEq, Eq)]
pub struct Outcome {
    pub state: u32,
    pub draws: usize,
    pub top: usize,
}

// The part q, whose chain begins at place h, is swept by pivots that the chooser chooses.
// No struct holds `q`, `top` and `slicing`: the part and `top` change, so each call would make it anew.
pub fn sweep(
    w: &mut [u32],
    words: &mut [u64],
    at: Layout,
    h: usize,
    q: u32,
    chooser: Chooser,
    top: usize,
    slicing: u32,
) -> Outcome
    requires { SomeOf at.n at.m (λ g. KindAsk g slicing at.base h q top w.old words.old) }
    ensures { EveryOf at.n at.m (λ g. KindAsk g slicing at.base h q top w.old words.old → KindSwept g slicing at.base q chooser.kind chooser.state top w.old words.old w.new words.new result.state result.draws result.top) }
{
    if chooser.draws() {
        let k = (at.n + 63) / 64;
        return drawn::sweep(w, &mut words[..k], at, h, q, chooser.state, top, slicing);
    }
    let t = chain::sweep(w, at, h, q, top, slicing);
    Outcome {
        state: chooser.state,
        draws: 0,
        top: t,
    }
}

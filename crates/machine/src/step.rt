// One step of the machine: a record is cleared, a pending part handed out, or a part divided.
ghost use Rattle.std.specs.Prelude.{◌≡◌};
ghost use Rattle.graph.specs.Arrows.{SomeOf, EveryOf};
ghost use Rattle.parts.specs.Divide.{Division};
ghost use Rattle.machine.specs.Aim.{aimed as aimed_of};
ghost use Rattle.machine.specs.Machine.{clearing, handing, ClearAsk, HandAsk, CutAsk, PartAsk, StepAsk, Stepped, older_than};

use crate::{Machine, NONE, Order, wrap};
use memory::layout::Layout;
use parts::divide;
use parts::divide::Divided;
use pivot::chooser::Chooser;
use sweep::Method;
use waiting::Part;

// The part of a record is divided: by slices where it is the whole that has still to be sliced, whose number is 1.
fn cut(
    w: &mut [u32],
    words: &mut [u64],
    at: Layout,
    part: Part,
    chooser: Chooser,
    top: usize,
) -> Divided
    requires { SomeOf at.n at.m (λ g. CutAsk g at.base part top w.old words.old) }
    ensures { EveryOf at.n at.m (λ g. CutAsk g at.base part top w.old words.old → Division g part.slicing at.base chooser.kind chooser.state part.first top w.old words.old w.new words.new result.outcome.state result.outcome.draws result.outcome.top result.children) }
{
    divide::divide(
        w,
        words,
        at,
        part.first as usize,
        chooser,
        top,
        part.slicing,
    )
}

impl Machine {
    // One record more is set to zeros.
    fn clear(self, n: usize) -> Machine
        requires { ClearAsk n self }
        ensures { result ≡ aimed_of n (clearing self) }
    {
        let cleared = Machine {
            part: NONE,
            cleared: self.cleared + 1,
            ..self
        };
        cleared.aimed(n)
    }

    // The next pending part goes to the list.
    fn hand(self, w: &[u32], at: Layout) -> Machine
        requires { HandAsk at.n at.base w.now self }
        ensures { result ≡ aimed_of at.n (handing at.n at.base w.now self) }
    {
        let handed = Machine {
            part: Part {
                first: w[at.pending() + self.given],
                slicing: self.method as u32,
            },
            count: self.count + 1,
            given: self.given + 1,
            ..self
        };
        handed.aimed(at.n)
    }

    // The oldest record's place after one is taken.
    fn older(self, n: usize) -> usize
        requires { ClearAsk n self }
        ensures { result ≡ older_than n self }
    {
        match self.order {
            Order::Newest => self.oldest,
            Order::Oldest => wrap(n, self.oldest + 1),
        }
    }

    // The record that was taken is divided, and its new parts are pending.
    fn take(self, w: &mut [u32], words: &mut [u64], at: Layout, part: Part) -> Machine
        requires { SomeOf at.n at.m (λ g. PartAsk g at.base part self w.old words.old) }
        ensures { EveryOf at.n at.m (λ g. PartAsk g at.base part self w.old words.old → Stepped g at.base part self w.old words.old w.new words.new result) }
    {
        let r = cut(w, words, at, part, self.chooser, self.top);
        let divided = Machine {
            part: NONE,
            chooser: Chooser {
                state: r.outcome.state,
                ..self.chooser
            },
            made: self.made + r.outcome.draws,
            oldest: self.older(at.n),
            count: self.count - 1,
            given: 0,
            pending: r.children,
            method: Method::Split,
            top: r.outcome.top,
            ..self
        };
        divided.aimed(at.n)
    }

    // One step on the record that was taken.
    pub fn step(self, w: &mut [u32], words: &mut [u64], at: Layout, part: Part) -> Machine
        requires { SomeOf at.n at.m (λ g. StepAsk g at.base part self w.old words.old) }
        ensures { EveryOf at.n at.m (λ g. StepAsk g at.base part self w.old words.old → Stepped g at.base part self w.old words.old w.new words.new result) }
    {
        if self.cleared < at.n {
            return self.clear(at.n);
        }
        if self.given < self.pending {
            return self.hand(w, at);
        }
        self.take(w, words, at, part)
    }
}

// Trimming a part: vertices that no edge of it enters, or none leaves, go, again and again.
#![tactic(auto)]

ghost use Rattle.graph.specs.Arrows.{SomeOf, EveryOf};
ghost use Rattle.prune.specs.Trim.{TrimAsk, Trimmed};

use memory::layout::Layout;

pub mod cursor;
mod queue;

// The part q, whose chain begins at place h, is trimmed. How many have gone.
pub fn prune(w: &mut [u32], at: Layout, h: usize, q: u32) -> usize
    requires { SomeOf at.n at.m (λ g. TrimAsk g at.base h q w.old) }
    ensures { EveryOf at.n at.m (λ g. TrimAsk g at.base h q w.old → Trimmed g at.base q w.old w.new result) }
{
    let k = queue::pass(w, at, h, q);
    queue::drain(w, at, q, k)
}

// One pivot of method 1 (OBF): what it reaches is cut into slices, each a union of whole components.
#![tactic(auto)]

ghost use Rattle.slices.specs.Prepare.{PrepareAsk, Prepared};

use memory::layout::Layout;

pub mod peel;
pub mod seeds;
pub mod slice;

// Each entering cursor is set to its vertex's first edge, and no vertex is marked.
pub fn prepare(w: &mut [u32], at: Layout)
    requires { PrepareAsk at.n at.m at.base w.old }
    ensures { Prepared at.n at.m at.base w.old at.n w.new }
{
    // a sum, since `at.backward()` asks for `InLimits`
    let first = at.n + 1 + at.m;
    w.copy_within(first..first + at.n, at.entering());
    memory::fill(w, at.marks(), at.n, 0);
}

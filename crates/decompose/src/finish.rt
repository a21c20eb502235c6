// The end of a decomposition.
ghost use Rattle.std.specs.Prelude.{◌≡◌};
ghost use Rattle.decompose.specs.Finish.{FinishAsk, Ended};

use machine::Machine;
use memory::layout::Layout;

// The colours become the label column, the working memory is zeroed, and the draws are told.
pub fn finish(
    w: &mut [u32],
    words: &mut [u64],
    at: Layout,
    label: &mut [u32],
    ended: Machine,
) -> usize
    requires { FinishAsk at.n at.m at.base label.old w.old words.old }
    ensures memory { Ended at.n at.m at.base label.old w.old words.old label.new w.new words.new }
    ensures draws { result ≡ ended.made }
{
    memory::copy(w, at.base, label);
    memory::clear(at.n, at.m, w, words);
    ended.made
}

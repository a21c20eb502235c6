// The places of a part are handed out, each behind the last of its new part; the first of each new part is pending.
ghost use Rattle.parts.specs.Share.{LinkAsk, Linked, HangAsk, Hung, ShareAsk, Sharing};

use memory::layout::Layout;

// Place i becomes the last of the part c. The number of pending parts then.
fn link(w: &mut [u32], at: Layout, i: usize, c: usize, k: usize) -> usize
    requires { LinkAsk at.n at.base i c k w.old }
    ensures { Linked at.n at.base i c k w.old w.new result }
{
    let chains = at.chains();
    let t = w[chains + c] as usize;
    w[chains + c] = i as u32;
    w[chains + i] = at.n as u32;
    if t < at.n {
        w[chains + t] = i as u32;
        return k;
    }
    w[at.pending() + k] = i as u32;
    k + 1
}

// Place i is handed out, if its vertex has no label yet.
fn hang(w: &mut [u32], at: Layout, i: usize, k: usize) -> usize
    requires { HangAsk at.n at.base i k w.old }
    ensures { Hung at.n at.base i k w.old w.new result }
{
    let v = w[at.order() + i] as usize;
    let c = w[at.base + v] as usize;
    if c < at.n {
        return k;
    }
    link(w, at, i, c, k)
}

// The places of the part whose chain begins at h are handed out; its new parts are first .. end - 1. The number of those that have vertices.
pub fn share(w: &mut [u32], at: Layout, first: usize, end: usize, h: usize) -> usize
    requires { ShareAsk at.n at.base first end h w.old }
    ensures { Sharing at.n at.base first end w.old at.n w.new result }
{
    let chains = at.chains();
    let mut k = 0;
    let mut i = h;
    // a `while` along the chain, whose places are in no range
    while i < at.n {
        let y = w[chains + i] as usize;
        k = hang(w, at, i, k);
        i = y;
    }
    k
}

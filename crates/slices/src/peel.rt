// Peeling: a seed that no edge of what remains enters is a component alone and goes; its successors become seeds.
ghost use Rattle.graph.specs.Arrows.{SomeOf, EveryOf};
ghost use Rattle.graph.specs.Parts.{only};
ghost use Rattle.slices.specs.Seeds.{Next, Listed};
ghost use Rattle.slices.specs.Peel.{PeelAsk, Peeled, Settled, Stuck, DrainAsk, PassAsk, PeeledAll};

use crate::seeds;
use crate::seeds::Places;
use memory::layout::Layout;
use prune::cursor;

// How many seeds are listed, and how many vertices have gone.
#[derive(Clone, Copy)]
pub struct Count {
    pub seeds: usize,
    pub gone: usize,
}

// v goes, if it remains and no edge of what remains enters it.
fn settle(w: &mut [u32], at: Layout, v: usize, r: u32, count: Count) -> Count
    requires { SomeOf at.n at.m (λ g. PeelAsk g at.base r v count.seeds count.gone w.old (only v)) }
    ensures { EveryOf at.n at.m (λ g. PeelAsk g at.base r v count.seeds count.gone w.old (only v) → Settled g at.base r w.old count.seeds count.gone w.new result.seeds result.gone (only v)) }
{
    if w[at.base + v] != r || cursor::advance(w, at.backward(), at.entering(), v, r) {
        return count;
    }
    w[at.base + v] = v as u32;
    w[at.base + at.n + count.gone] = v as u32;
    Count {
        seeds: seeds::mark_next(w, at, v, r, count.seeds),
        gone: count.gone + 1,
    }
}

// The successors of u are looked at again. A step as a closure, for this and seeds::mark_next, would need a relation in the contract: no plainer.
fn settle_next(w: &mut [u32], at: Layout, u: usize, r: u32, before: Count) -> Count
    requires { SomeOf at.n at.m (λ g. PeelAsk g at.base r u before.seeds before.gone w.old (Next g u)) }
    ensures { EveryOf at.n at.m (λ g. PeelAsk g at.base r u before.seeds before.gone w.old (Next g u) → Settled g at.base r w.old before.seeds before.gone w.new result.seeds result.gone (Next g u)) }
{
    let i0 = w[u] as usize;
    let t = w[u + 1] as usize;
    let mut count = before;
    for i in i0..t {
        let y = w[at.n + 1 + i] as usize;
        count = settle(w, at, y, r, count);
    }
    count
}

// The successors of all that has gone are looked at again, until no more goes.
#[tactic(auto, using(crate::proofs::Draining::drain_few))]
fn drain(w: &mut [u32], at: Layout, r: u32, before: Count) -> Count
    requires { SomeOf at.n at.m (λ g. DrainAsk g at.base r before.seeds before.gone w.old) }
    ensures { EveryOf at.n at.m (λ g. DrainAsk g at.base r before.seeds before.gone w.old → Peeled g at.base r w.old before.seeds before.gone w.new result.seeds result.gone × Stuck g at.base r w.new) }
{
    let mut h = 0;
    let mut count = before;
    // The queue grows while it is gone along.
    while h < count.gone {
        let u = w[at.base + at.n + h] as usize;
        count = settle_next(w, at, u, r, count);
        h += 1;
    }
    count
}

// The seeds at the given places are looked at once.
fn pass(w: &mut [u32], at: Layout, r: u32, places: Places) -> Count
    requires { SomeOf at.n at.m (λ g. PassAsk g at.base r places.from places.to w.old) }
    ensures { EveryOf at.n at.m (λ g. PassAsk g at.base r places.from places.to w.old → Settled g at.base r w.old places.to 0 w.new result.seeds result.gone (Listed at.n at.base w.old places.from places.to)) }
{
    let seeds = at.seeds();
    let mut count = Count {
        seeds: places.to,
        gone: 0,
    };
    for i in places.from..places.to {
        let v = w[seeds + i] as usize;
        count = settle(w, at, v, r, count);
    }
    count
}

// Seeds go until none can.
pub fn peel(w: &mut [u32], at: Layout, r: u32, places: Places) -> Count
    requires { SomeOf at.n at.m (λ g. PassAsk g at.base r places.from places.to w.old) }
    ensures { EveryOf at.n at.m (λ g. PassAsk g at.base r places.from places.to w.old → PeeledAll g at.base r w.old places.to w.new result.seeds result.gone) }
{
    let count = pass(w, at, r, places);
    drain(w, at, r, count)
}

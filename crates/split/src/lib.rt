// One pivot: what it reaches and what reaches it within its part; what they share is a component and gets its label.
// The queue stands in w, and no slice of it can be lent beside w: its length k goes along as a number.
#![tactic(auto)]

ghost use Rattle.graph.specs.Arrows.{SomeOf, EveryOf};
ghost use Rattle.split.specs.Split.{Lowest, Queued, NameAsk, Named, LabelAsk, Labelled, PivotAsk, Split};

use memory::layout::Layout;
use paint::Map;

// The lowest vertex of the colour d among the first k of the queue, or n.
fn lowest(w: &[u32], at: Layout, k: usize, d: u32) -> usize
    requires { Queued at.n at.base w.now k }
    ensures { Lowest at.n at.base w.now k d result }
{
    let mut l = at.n;
    for i in 0..k {
        let v = w[at.base + at.n + i] as usize;
        if w[at.base + v] == d {
            l = l.min(v);
        }
    }
    l
}

// What has the colour d among the first k of the queue gets the colour l.
fn name(w: &mut [u32], at: Layout, k: usize, d: u32, l: u32)
    requires { NameAsk at.n at.base w.old k d l }
    ensures { Named at.n at.base w.old k d l w.new }
{
    for i in 0..k {
        let v = w[at.base + at.n + i] as usize;
        if w[at.base + v] == d {
            w[at.base + v] = l;
        }
    }
}

// What has the colour d among the first k of the queue gets its lowest vertex as colour.
pub fn label(w: &mut [u32], at: Layout, k: usize, d: u32)
    requires { LabelAsk at.n at.base w.old k d }
    ensures { Labelled at.n at.base w.old k d w.new }
{
    let l = lowest(w, at, k, d);
    name(w, at, k, d, l as u32);
}

// The part q is split at its vertex p: the rest of what p reaches becomes f, the rest of what reaches p f + 1.
#[tactic(auto, using(crate::proofs::Same::top_le))]
pub fn split(w: &mut [u32], at: Layout, p: usize, q: u32, f: u32)
    requires { SomeOf at.n at.m (λ g. PivotAsk g at.base p q f w.old) }
    ensures { EveryOf at.n at.m (λ g. PivotAsk g at.base p q f w.old → Split g at.base p q f w.old w.new) }
{
    let forward = at.forward();
    let backward = at.backward();
    let reached = Map {
        a: q,
        a2: f,
        c: q,
        c2: f,
    };
    let reaching = Map {
        a: q,
        a2: f + 1,
        c: f,
        c2: f + 2,
    };
    paint::search(w, forward, p, reached);
    let s = paint::search(w, backward, p, reaching);
    label(w, at, s.k, f + 2);
}

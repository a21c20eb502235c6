// Seeds of what remains, which has the colour r: each is marked once, and listed.
ghost use Rattle.graph.specs.Arrows.{Some, Every};
ghost use Rattle.slices.specs.Seeds.{MarkAsk, Mark, Marked, Next, NextAsk, Behind, AllAsk};

use memory::layout::Layout;

// Places of the list of seeds: from .. to - 1.
#[derive(Clone, Copy)]
pub struct Places {
    pub from: usize,
    pub to: usize,
}

// y becomes a seed, if it is in what remains and never was one. The new number of seeds.
// The list stands in w, and no slice of it can be lent beside w: its length e goes along as a number.
pub fn mark(w: &mut [u32], at: Layout, y: usize, r: u32, e: usize) -> usize
    requires { MarkAsk at.n at.base y r e w.old }
    ensures { Mark at.n at.base y r e w.old w.new result }
{
    let marks = at.marks();
    if w[at.base + y] != r || w[marks + y] != 0 {
        return e;
    }
    w[marks + y] = 1;
    w[at.seeds() + e] = y as u32;
    e + 1
}

// The successors of v become seeds.
pub fn mark_next(w: &mut [u32], at: Layout, v: usize, r: u32, e0: usize) -> usize
    requires { Some at.n (λ g. NextAsk g at.base r v e0 w.old) }
    ensures { Every at.n (λ g. NextAsk g at.base r v e0 w.old → Marked at.n at.base r w.old e0 w.new result (Next g v)) }
{
    let i0 = w[v] as usize;
    let t = w[v + 1] as usize;
    let mut e = e0;
    for i in i0..t {
        let y = w[at.n + 1 + i] as usize;
        e = mark(w, at, y, r, e);
    }
    e
}

// The successors of the first k of the queue become seeds.
pub fn mark_all(w: &mut [u32], at: Layout, k: usize, r: u32, e0: usize) -> usize
    requires { Some at.n (λ g. AllAsk g at.base r k e0 w.old) }
    ensures { Every at.n (λ g. AllAsk g at.base r k e0 w.old → Marked at.n at.base r w.old e0 w.new result (Behind g at.base w.old k)) }
{
    let mut e = e0;
    for i in 0..k {
        let v = w[at.base + at.n + i] as usize;
        e = mark_next(w, at, v, r, e);
    }
    e
}

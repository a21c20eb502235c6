// What remains of a part as a set of bits: filled along its chain, and what a search paints taken out.
ghost use Rattle.graph.specs.Arrows.{Some, Every};
ghost use Rattle.paint.specs.Colours.{paint_of};
ghost use Rattle.sweep.specs.Drawn.{EnterAsk, Entered, MarkAsk, Marks, StrikeAsk, Struck, EraseAsk, Erased, FindAsk, FoundIn};

use memory::layout::{Direction, Layout};
use paint::Map;

// How many a search has painted, and how many are left in the set.
#[derive(Clone, Copy)]
pub struct Found {
    pub k: usize,
    pub left: usize,
}

// The vertex at place i is added, if it has the colour q. The size of the set.
fn enter(w: &[u32], words: &mut [u64], at: Layout, i: usize, q: u32, k: usize) -> usize
    requires { EnterAsk at.n at.base i w.now words.old k }
    ensures { Entered at.n at.base i q w.now words.old k words.new result }
{
    let v = w[at.order() + i] as usize;
    if w[at.base + v] != q {
        return k;
    }
    sets::add(words, v);
    k + 1
}

// The vertices of the colour q, found along the chain from h, become the set. Its size.
pub fn mark(w: &[u32], words: &mut [u64], at: Layout, h: usize, q: u32) -> usize
    requires { MarkAsk at.n at.base h q w.now words.old }
    ensures { Marks at.n at.base q w.now words.new result }
{
    let chains = at.chains();
    let mut k = 0;
    let mut i = h;
    // a `while` along the chain, whose places are in no range
    while i < at.n {
        k = enter(w, words, at, i, q, k);
        i = w[chains + i] as usize;
    }
    k
}

// v is taken out of the set, if it is in it. The size of the set.
fn strike(words: &mut [u64], v: usize, left: usize) -> usize
    requires { StrikeAsk v words.old left }
    ensures { Struck v words.old left words.new result }
{
    if sets::has(words, v) {
        sets::remove(words, v);
        return left - 1;
    }
    left
}

// The first k of the queue are taken out of the set. Its size.
fn erase(w: &[u32], words: &mut [u64], along: Direction, k: usize, size: usize) -> usize
    requires { EraseAsk along.n along.base w.now k words.old size }
    ensures { Erased along.n along.base w.now k words.old words.new result }
{
    let queue = along.base + along.n;
    let mut left = size;
    for v in &w[queue..queue + k] {
        left = strike(words, *v as usize, left);
    }
    left
}

// `paint::search` in the part of the colour a from p, where the set loses what is painted. In line, so that direction and map are not put into memory for each pivot.
#[inline(always)]
pub fn search(
    w: &mut [u32],
    words: &mut [u64],
    along: Direction,
    p: usize,
    map: Map,
    size: usize,
) -> Found
    requires { Some along.n (λ g. FindAsk g (paint_of map) along.index along.base p map.a w.old words.old size) }
    ensures { Every along.n (λ g. FindAsk g (paint_of map) along.index along.base p map.a w.old words.old size → FoundIn g (paint_of map) along.base p map.a w.old w.new words.new result.k result.left) }
{
    let s = paint::search(w, along, p, map);
    let left = erase(w, words, along, s.k, size);
    Found { k: s.k, left }
}

// What a pivot reaches is cut into slices: seeds are peeled, what reaches a seed is a slice, its successors are the next seeds.
ghost use Rattle.std.specs.Prelude.{◌≡◌};
ghost use Rattle.graph.specs.Graph.{rev};
ghost use Rattle.graph.specs.Arrows.{Some, Every, SomeOf, EveryOf};
ghost use Rattle.paint.specs.Colours.{paint};
ghost use Rattle.paint.specs.Paint.{Begun};
ghost use Rattle.slices.specs.Seeds.{Listed};
ghost use Rattle.slices.specs.Slice.{CutAsk, Cut, CutsAsk, Done, SliceAsk, Sliced};

use crate::seeds::Places;
use crate::{peel, seeds};
use memory::layout::Layout;
use paint::Map;

// The one change of colours that leads from r to s.
fn change(r: u32, s: u32) -> Map
    ensures { result ≡ record { a = r; a2 = s; c = r; c2 = s } }
{
    Map {
        a: r,
        a2: s,
        c: r,
        c2: s,
    }
}

// The seeds at the given places are painted and put into the queue. The queue's length.
fn sow(w: &mut [u32], at: Layout, r: u32, s: u32, places: Places) -> usize
    requires { Some at.n (λ g. CutAsk g at.base r s places.from places.to w.old) }
    ensures { Every at.n (λ g. CutAsk g at.base r s places.from places.to w.old → Begun (rev g) (paint r s r s) at.base (Listed at.n at.base w.old places.from places.to) w.old w.new result) }
{
    let seeds = at.seeds();
    let forward = at.forward();
    let map = change(r, s);
    let mut k = 0;
    for i in places.from..places.to {
        let x = w[seeds + i] as usize;
        k = paint::visit(w, forward, x, map, k);
    }
    k
}

// What reaches a seed becomes the slice s. The number of seeds listed.
fn cut(w: &mut [u32], at: Layout, r: u32, s: u32, places: Places) -> usize
    requires { SomeOf at.n at.m (λ g. CutAsk g at.base r s places.from places.to w.old) }
    ensures { EveryOf at.n at.m (λ g. CutAsk g at.base r s places.from places.to w.old → Cut g at.base r s w.old places.to w.new result) }
{
    let backward = at.backward();
    let k = sow(w, at, r, s, places);
    let f = paint::spread(w, backward, change(r, s), k);
    seeds::mark_all(w, at, f.k, r, places.to)
}

// Slices are cut from what remains until there are no seeds. The first colour that no slice has.
pub fn cuts(w: &mut [u32], at: Layout, r: u32, top: usize) -> usize
    requires { SomeOf at.n at.m (λ g. CutsAsk g at.base r top w.old) }
    ensures { EveryOf at.n at.m (λ g. CutsAsk g at.base r top w.old → Done g at.base r top w.old w.new result) }
{
    let mut places = Places { from: 0, to: 1 };
    let mut s = top;
    // Each slice lists the seeds of the next.
    while places.from < places.to {
        let count = peel::peel(w, at, r, places);
        let listed = Places {
            from: places.from,
            to: count.seeds,
        };
        let e = cut(w, at, r, s as u32, listed);
        places = Places {
            from: count.seeds,
            to: e,
        };
        s += 1;
    }
    s
}

// What p reaches in the part q is cut into slices. The first colour that no part has.
pub fn slice(w: &mut [u32], at: Layout, p: usize, q: u32, top: usize) -> usize
    requires { SomeOf at.n at.m (λ g. SliceAsk g at.base p q top w.old) }
    ensures { EveryOf at.n at.m (λ g. SliceAsk g at.base p q top w.old → Sliced g at.base p q top w.old w.new result) }
{
    let r = (5 * at.n + 5) as u32;
    paint::search(w, at.forward(), p, change(q, r));
    seeds::mark(w, at, p, r, 0);
    cuts(w, at, r, top)
}

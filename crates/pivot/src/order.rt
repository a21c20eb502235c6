// The order of a caller's list: the listed vertices first, then the others rising.
ghost use Rattle.std.specs.Prelude.{[]};
ghost use Rattle.pivot.specs.Order.{Ordered};
ghost use Rattle.pivot.specs.Placing.{Room, Place, Placed, Begun, Listing, Rest, AllPlaced};

use memory::layout::Layout;

// Vertex v takes place k of the order, unless it is marked; gives the next free place.
fn place(w: &mut [u32], at: Layout, k: usize, v: usize) -> usize
    requires { Place at.n at.base k v w.old }
    ensures { Placed at.n at.base k v w.old w.new result }
{
    if at.n <= v {
        return k;
    }
    if w[at.base + v] != 0 {
        return k;
    }
    w[at.base + v] = 1;
    w[at.order() + k] = v as u32;
    k + 1
}

// The entries of the list that are vertices, each at its first occurrence; gives their number.
fn listed(list: &[u32], w: &mut [u32], at: Layout) -> usize
    requires { Begun at.n at.base w.old }
    ensures { Listing at.n at.base list.now w.old w.new result }
{
    let mut k = 0;
    for v in list {
        k = place(w, at, k, *v as usize);
    }
    k
}

// The other vertices rising, from place first on.
fn others(w: &mut [u32], at: Layout, first: usize)
    requires { Rest at.n at.base first w.old }
    ensures { AllPlaced at.n at.base first w.old w.new }
{
    let mut k = first;
    for v in 0..at.n {
        k = place(w, at, k, v);
    }
}

// The colours at the base are the marks.
pub fn arrange(list: &[u32], w: &mut [u32], at: Layout)
    requires { Room at.n at.base w.old }
    ensures { Ordered at.n list.now at.base w.old w.new }
{
    memory::fill(w, at.base, at.n, 0);
    let k = listed(list, w, at);
    others(w, at, k);
}

// Without a list the order is the rising one, and needs no marks.
pub fn rising(w: &mut [u32], at: Layout)
    requires { Room at.n at.base w.old }
    ensures { Ordered at.n [] at.base w.old w.new }
{
    memory::count(w, at.order(), at.n, 0);
}

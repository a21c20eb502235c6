// Vertex sets in 64-bit words, by shifts and masks: vertex v is bit v mod 64 of word v / 64.
#![tactic(auto)]

ghost use Rattle.std.specs.Prelude.{ℕ, ◌≡◌, ◌*◌, ◌<◌, ◌≤◌, length, eqb, slice_index};
ghost use Rattle.graph.specs.Limits.{words_of};
ghost use Rattle.graph.specs.Numbers.{tally};
ghost use Rattle.graph.specs.Sets.{bit};
ghost use Rattle.sets.specs.Changes.{Added, Removed, Joined, Shared, Clipped};
ghost use Rattle.sets.specs.Sizes.{ill_sized};

// Is v in the set?
pub fn has(w: &[u64], v: usize) -> bool
    requires { v < length w.now * 64 }
    ensures { result ≡ eqb (bit w.now v) 1 }
{
    (w[v / 64] >> (v % 64)) & 1 == 1
}

// v is added to the set.
pub fn add(w: &mut [u64], v: usize)
    requires { v < length w.old * 64 }
    ensures { Added v w.old w.new }
{
    w[v / 64] |= 1 << (v % 64);
}

// v is taken out of the set.
pub fn remove(w: &mut [u64], v: usize)
    requires { v < length w.old * 64 }
    ensures { Removed v w.old w.new }
{
    w[v / 64] &= !(1 << (v % 64));
}

// Each word of w becomes f of itself and of x's word at its place.
fn combine<F: Fn(u64, u64) -> u64>(w: &mut [u64], x: &[u64], f: F)
    requires long { length w.old ≡ length x.now }
    requires call { F.IsAlwaysCallable f }
    ensures long { length w.new ≡ length w.old }
    ensures each { (i : ℕ) → i < length w.old → F.post f (slice_index w.old i) (slice_index x.now i) (slice_index w.new i) }
{
    for (i, z) in x.iter().enumerate() {
        w[i] = f(w[i], *z);
    }
}

// w becomes the join of w and x.
pub fn join(w: &mut [u64], x: &[u64])
    requires { length w.old ≡ length x.now }
    ensures { Joined w.old x.now w.new }
{
    combine(w, x, |y, z| y | z);
}

// w becomes what w and x share.
pub fn meet(w: &mut [u64], x: &[u64])
    requires { length w.old ≡ length x.now }
    ensures { Shared w.old x.now w.new }
{
    combine(w, x, |y, z| y & z);
}

// Bits at n and above become zero: only the last word can have such bits.
pub fn clip(w: &mut [u64], n: usize)
    requires { length w.old ≡ words_of n }
    ensures { Clipped n w.old w.new }
{
    let i = n / 64;
    if i < w.len() {
        w[i] &= (1 << (n % 64)) - 1;
    }
}

// The size of the set: the sum of the counts of ones of its words.
pub fn size(w: &[u64]) -> usize
    requires { length w.now ≤ 1024 }
    ensures { result ≡ tally (bit w.now) (length w.now * 64) }
{
    w.iter().map(|x| x.count_ones() as usize).sum()
}

// Has w another length than a set of n vertices?
pub fn ill_sized(w: &[u64], n: usize) -> bool
    ensures { result ≡ ill_sized n w.now }
{
    w.len() != n.div_ceil(64)
}

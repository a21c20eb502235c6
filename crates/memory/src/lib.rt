// The working memory: where its regions stand, and what fills, counts, copies, raises and clears them.
#![tactic(auto)]

ghost use Rattle.std.specs.Prelude.{◌+◌, ◌≤◌, ◌<◌, length};
ghost use Rattle.memory.specs.Memory.{Filled, CountAsk, Put, Copied, Raised, Zeroed, ClearAsk, Cleared};

use graph::limits;

pub mod decomposer;
pub mod layout;
pub mod writer;

// The n places from a on become x.
pub fn fill(w: &mut [u32], a: usize, n: usize, x: u32)
    requires { a + n ≤ length w.old }
    ensures { Filled a n x w.old w.new }
{
    w[a..a + n].fill(x);
}

// The len places from a on become first, first + 1, ..
pub fn count(w: &mut [u32], a: usize, len: usize, first: usize)
    requires { CountAsk a len first w.old }
    ensures { Put a len (λ i. i + first) w.old w.new }
{
    for i in 0..len {
        w[a + i] = (i + first) as u32;
    }
}

// A column becomes what stands in w from a on.
pub fn copy(w: &[u32], a: usize, column: &mut [u32])
    requires { a + length column.old ≤ length w.now }
    ensures { Copied w.now a column.old column.new }
{
    column.copy_from_slice(&w[a..a + column.len()]);
}

// Place p becomes x where it is less.
pub fn raise(w: &mut [u32], p: usize, x: u32)
    requires { p < length w.old }
    ensures { Raised p x w.old w.new }
{
    w[p] = w[p].max(x);
}

// The first k words become 0.
pub fn zero_words(w: &mut [u64], k: usize)
    requires { k ≤ length w.old }
    ensures { Zeroed k w.old w.new }
{
    w[..k].fill(0);
}

// The working memory that n vertices and m edges need becomes 0.
pub fn clear(n: usize, m: usize, numbers: &mut [u32], words: &mut [u64])
    requires { ClearAsk n m numbers.old words.old }
    ensures { Cleared n m numbers.old numbers.new words.old words.new }
{
    fill(numbers, 0, limits::numbers_needed(n, m), 0);
    zero_words(words, limits::words_needed(n));
}

// The regions of the decomposer behind the indexes: colours at the base, the queue n numbers behind them, region k at base + k n, and from ENTERING on two numbers later.
ghost use Rattle.std.specs.Prelude.{◌≡◌, ◌<◌, ◌^◌};
ghost use Rattle.memory.specs.Decomposer.{chains_at, lasts_at, entering_at, leaving_at, marks_at, pending_at, seeds_at, order_at};

use crate::layout::Layout;

const CHAINS: usize = 2;

const LASTS: usize = 3;

const ENTERING: usize = 6;

const LEAVING: usize = 7;

const MARKS: usize = 7;

const PENDING: usize = 8;

const SEEDS: usize = 8;

const ORDER: usize = 9;

// Where each region begins.
impl Layout {
    // The next place of each place in its part, and from n on the last place of each part, that of part n first.
    pub fn chains(self) -> usize
        requires { chains_at self.n self.base < 2 ^ 64 }
        ensures { result ≡ chains_at self.n self.base }
    {
        self.base + CHAINS * self.n
    }

    // The last place of each part, that of part n first.
    pub fn lasts(self) -> usize
        requires { lasts_at self.n self.base < 2 ^ 64 }
        ensures { result ≡ lasts_at self.n self.base }
    {
        self.base + LASTS * self.n
    }

    // Cursors of the edges that enter each vertex.
    pub fn entering(self) -> usize
        requires { entering_at self.n self.base < 2 ^ 64 }
        ensures { result ≡ entering_at self.n self.base }
    {
        self.base + ENTERING * self.n + 2
    }

    // Cursors of the edges that leave each vertex.
    pub fn leaving(self) -> usize
        requires { leaving_at self.n self.base < 2 ^ 64 }
        ensures { result ≡ leaving_at self.n self.base }
    {
        self.base + LEAVING * self.n + 2
    }

    // Method 1: whether a vertex was a seed.
    pub fn marks(self) -> usize
        requires { marks_at self.n self.base < 2 ^ 64 }
        ensures { result ≡ marks_at self.n self.base }
    {
        self.base + MARKS * self.n + 2
    }

    // The first place of each pending part.
    pub fn pending(self) -> usize
        requires { pending_at self.n self.base < 2 ^ 64 }
        ensures { result ≡ pending_at self.n self.base }
    {
        self.base + PENDING * self.n + 2
    }

    // Method 1: the seeds.
    pub fn seeds(self) -> usize
        requires { seeds_at self.n self.base < 2 ^ 64 }
        ensures { result ≡ seeds_at self.n self.base }
    {
        self.base + SEEDS * self.n + 2
    }

    // The vertices, as a sweep takes its pivots.
    pub fn order(self) -> usize
        requires { order_at self.n self.base < 2 ^ 64 }
        ensures { result ≡ order_at self.n self.base }
    {
        self.base + ORDER * self.n + 2
    }
}

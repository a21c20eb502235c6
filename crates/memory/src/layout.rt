// Where a table's indexes and regions stand in the working numbers.
ghost use Rattle.std.specs.Prelude.{◌≡◌, ◌+◌};
ghost use Rattle.graph.specs.Limits.{InLimits};

// One direction along the edges of n vertices: its index begins at `index`, the colours at `base`, and the queue n numbers behind them.
#[derive(Clone, Copy)]
pub struct Direction {
    pub n: usize,
    pub index: usize,
    pub base: usize,
}

// n vertices and m edges: the forward index stands at the front, the reverse index behind it, and the regions from `base` on.
#[derive(Clone, Copy)]
pub struct Layout {
    pub n: usize,
    pub m: usize,
    pub base: usize,
}

impl Layout {
    pub fn forward(self) -> Direction
        ensures { result ≡ record { n = self.n; index = 0; base = self.base } }
    {
        Direction {
            n: self.n,
            index: 0,
            base: self.base,
        }
    }

    pub fn backward(self) -> Direction
        requires { InLimits self.n self.m }
        ensures { result ≡ record { n = self.n; index = self.n + 1 + self.m; base = self.base } }
    {
        Direction {
            n: self.n,
            index: self.n + 1 + self.m,
            base: self.base,
        }
    }
}

// The regions of the certificate writer behind the indexes: in-distances at b, out-distances at b + n, region k at b + k n.

pub const QUEUE: usize = 2;

pub const IN_EDGES: usize = 3;

pub const OUT_EDGES: usize = 4;

pub const RANKS: usize = 5;

pub const COUNTS: usize = 6;

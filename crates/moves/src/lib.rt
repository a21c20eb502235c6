// What a step of the linear engine does in memory, without a graph: edges are passed, a vertex is stored, segments join and close.
#![tactic(auto)]

pub mod segments;
pub mod stores;

// Where the search's memory stands: behind the index of n vertices, from `base` on, n places of the stack, n of the fronts and 2 n of the path.
#[derive(Clone, Copy)]
pub struct Regions {
    pub n: usize,
    pub base: usize,
}

// Where the search stands: how many are on the stack, segments of it, how many on the path; the path's last vertex, its next edge and the end of its edges; and the steps of the call that led here.
#[derive(Clone, Copy)]
pub struct Stand {
    pub stack: usize,
    pub fronts: usize,
    pub path: usize,
    pub top: usize,
    pub cursor: usize,
    pub end: usize,
    pub steps: usize,
}

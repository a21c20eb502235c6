// The list of waiting parts: records lent by the caller as a slice.
#![tactic(auto)]

// A waiting part.
#[repr(C)]
#[derive(Clone, Copy, Debug, PartialEq, Eq)]
pub struct Part {
    // its first place in the order of the pivots, not a vertex
    pub first: u32,
    // 1 if method 1 has still to slice it: a number, as C lends it
    pub slicing: u32,
}

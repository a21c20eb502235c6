// The choice of a pivot: the generator, the member at a place of a set, the order of a caller's list.
#![tactic(auto)]

pub mod chooser;
pub mod order;
pub mod place;

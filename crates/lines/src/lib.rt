// A text's lines, and the numbers of a line.
#![tactic(auto)]

pub mod numbers;
pub mod pieces;

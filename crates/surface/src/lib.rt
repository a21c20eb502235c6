// Every public function for C, at full size: the result is the refusal number, 0 if done; values come back through lent
// numbers, which a refusal leaves as they were. surface_c exports them under the same names.
#![tactic(auto)]

pub mod columns;
pub mod groups;
pub mod tables;
pub mod texts;

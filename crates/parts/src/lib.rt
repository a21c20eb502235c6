// A part divided by either method: made ready, swept by pivots, and its new parts handed out.
#![tactic(auto)]

pub mod divide;
pub mod share;

// The chooser: the number of a kind of pivots and a 32-bit state, lent by `&mut`, also from C.
ghost use Rattle.std.specs.Prelude.{◌≡◌, eqb};
ghost use Rattle.graph.specs.Pivot.{draw as drawn};
ghost use Rattle.pivot.specs.Kinds.{Reads};

use graph::refusal::Refusal;

#[repr(C)]
#[derive(Clone, Copy, Debug, PartialEq, Eq)]
pub struct Chooser {
    pub kind: u32,
    pub state: u32,
}

impl Chooser {
    // Are pivots drawn?
    pub fn draws(self) -> bool
        ensures { result ≡ eqb self.kind 1 }
    {
        Pivots::try_from(self.kind) == Ok(Pivots::Drawn)
    }
}

// Which vertex of what is left is the pivot: the lowest, a drawn one, or the first in the caller's list.
#[derive(Clone, Copy, Debug, PartialEq, Eq)]
pub enum Pivots {
    Lowest,
    Drawn,
    Listed,
}

impl TryFrom<u32> for Pivots {
    type Error = Refusal;

    ghost try_from_gives = { Reads };

    fn try_from(kind: u32) -> Result<Pivots, Refusal> {
        match kind {
            0 => Ok(Pivots::Lowest),
            1 => Ok(Pivots::Drawn),
            2 => Ok(Pivots::Listed),
            _ => Err(Refusal::UnknownChoice),
        }
    }
}

// The state after `state`.
pub fn next(state: u32) -> u32
    ensures { result ≡ drawn state }
{
    state.wrapping_mul(1664525).wrapping_add(1013904223)
}

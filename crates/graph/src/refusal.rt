// Why a call refuses; each reason has a number, which callers in C get.
ghost use Rattle.std.specs.Prelude.{◌≡◌};
ghost use Rattle.graph.specs.Reasons.{number_of};

#[derive(Clone, Copy, Debug, PartialEq, Eq)]
pub enum Refusal {
    TooManyVertices,
    UnevenColumns,
    TooManyEdges,
    EndOutside,
    WrongLength,
    MemoryShort,
    ListShort,
    UnknownChoice,
    VertexOutside,
    WrongLabels,
    NoPath,
    RoomShort,
    FirstLineFaulty,
    SizeLineFaulty,
    EntryFaulty,
    InputTooLong,
    UnevenKinds,
    KindOutside,
}

impl From<Refusal> for u32 {
    ghost from_gives = { λ r k. k ≡ number_of r };

    fn from(r: Refusal) -> u32 {
        match r {
            Refusal::TooManyVertices => 1,
            Refusal::UnevenColumns => 2,
            Refusal::TooManyEdges => 3,
            Refusal::EndOutside => 4,
            Refusal::WrongLength => 5,
            Refusal::MemoryShort => 6,
            Refusal::ListShort => 7,
            Refusal::UnknownChoice => 8,
            Refusal::VertexOutside => 9,
            Refusal::WrongLabels => 10,
            Refusal::NoPath => 11,
            Refusal::RoomShort => 12,
            Refusal::FirstLineFaulty => 13,
            Refusal::SizeLineFaulty => 14,
            Refusal::EntryFaulty => 15,
            Refusal::InputTooLong => 16,
            Refusal::UnevenKinds => 21,
            Refusal::KindOutside => 22,
        }
    }
}

impl std::fmt::Display for Refusal {
    fn fmt<W: std::fmt::Write>(&self, f: &mut std::fmt::Formatter<W>) -> std::fmt::Result {
        write!(f, "{}", u32::from(*self))
    }
}

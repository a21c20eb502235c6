// The collection T: 0→1, 1→2, 2→0, 2→3, 3→4, 4→3, 5→5; two columns of kinds for it, and a mask.
ghost use Rattle.std.specs.Prelude.{◌≡◌};
ghost use Rattle.facts.specs.Facts.{sources_t, targets_t, kinds_t, mentions_t, labels_t};

use graph::limits;
use graph::table::Table;

// Every kind but 1, that of mentions.
pub const HARD: u8 = 253;

pub fn sources() -> [u32; 7]
    ensures { result ≡ sources_t }
{
    [0, 1, 2, 2, 3, 4, 5]
}

pub fn targets() -> [u32; 7]
    ensures { result ≡ targets_t }
{
    [1, 2, 0, 3, 4, 3, 5]
}

pub fn kinds() -> [u8; 7]
    ensures { result ≡ kinds_t }
{
    [0, 0, 0, 0, 0, 0, 0]
}

// The reference 2→0 is a mere mention, of kind 1.
pub fn mentions() -> [u8; 7]
    ensures { result ≡ mentions_t }
{
    [0, 0, 1, 0, 0, 0, 0]
}

pub fn labels() -> [u32; 6]
    ensures { result ≡ labels_t }
{
    [0, 0, 0, 3, 3, 5]
}

// T with a column of kinds and a mask.
#[derive(Clone, Copy)]
pub struct Collection {
    sources: [u32; 7],
    targets: [u32; 7],
    kinds: [u8; 7],
    mask: u8,
}

impl Collection {
    fn new(kinds: [u8; 7], mask: u8) -> Collection {
        Collection {
            sources: sources(),
            targets: targets(),
            kinds,
            mask,
        }
    }

    // Every reference is of kind 0, and counts.
    pub fn whole() -> Collection {
        Collection::new(kinds(), limits::FULL_MASK)
    }

    pub fn with_mentions() -> Collection {
        Collection::new(mentions(), limits::FULL_MASK)
    }

    pub fn without_mentions() -> Collection {
        Collection::new(mentions(), HARD)
    }

    pub fn table(&self) -> Table<'_> {
        Table {
            n: 6,
            sources: &self.sources,
            targets: &self.targets,
            kinds: &self.kinds,
            mask: self.mask,
        }
    }
}

// On an edge table: its check, the search, trimming and the shortest path.
ghost use Rattle.std.specs.Prelude.{◌≡◌};
ghost use Rattle.graph.specs.Refusal.{table_refusal};
ghost use Rattle.surface.specs.Search.{Searched};
ghost use Rattle.surface.specs.Trim.{Trimmed};
ghost use Rattle.surface.specs.Path.{Walked};

use graph::limits;
use graph::table::Table;

pub fn tinoweala_check_table(n: usize, sources: &[u32], targets: &[u32], kinds: &[u8]) -> u32
    ensures { result ≡ table_refusal n sources.now targets.now kinds.now }
{
    let table = Table {
        n,
        sources,
        targets,
        kinds,
        mask: limits::FULL_MASK,
    };
    match table.check() {
        Err(r) => u32::from(r),
        Ok(()) => 0,
    }
}

pub fn tinoweala_search(
    n: usize,
    sources: &[u32],
    targets: &[u32],
    kinds: &[u8],
    mask: u8,
    starts: &[u64],
    permitted: &[u64],
    backward: bool,
    reached: &mut [u64],
    numbers: &mut [u32],
    words: &mut [u64],
    vertices: &mut usize,
    edges: &mut usize,
) -> u32
    ensures { Searched (record { n = n; sources = sources.now; targets = targets.now; kinds = kinds.now; mask = mask; starts = starts.now; permitted = permitted.now; reached = reached.old; numbers = numbers.old; words = words.old }) backward vertices.old edges.old reached.new numbers.new words.new (result, vertices.new, edges.new) }
{
    let table = Table {
        n,
        sources,
        targets,
        kinds,
        mask,
    };
    match reach::search(&table, starts, permitted, backward, reached, numbers, words) {
        Err(refusal) => u32::from(refusal),
        Ok(found) => {
            *vertices = found.vertices;
            *edges = found.edges;
            0
        }
    }
}

pub fn tinoweala_trim(
    n: usize,
    sources: &[u32],
    targets: &[u32],
    kinds: &[u8],
    mask: u8,
    part: &[u64],
    left: &mut [u64],
    numbers: &mut [u32],
    words: &mut [u64],
    vertices: &mut usize,
) -> u32
    ensures { Trimmed (record { n = n; sources = sources.now; targets = targets.now; kinds = kinds.now; mask = mask; part = part.now; left = left.old; numbers = numbers.old; words = words.old }) vertices.old left.new numbers.new words.new (result, vertices.new) }
{
    let table = Table {
        n,
        sources,
        targets,
        kinds,
        mask,
    };
    match trim::trim(&table, part, left, numbers, words) {
        Err(r) => u32::from(r),
        Ok(size) => {
            *vertices = size;
            0
        }
    }
}

pub fn tinoweala_path(
    n: usize,
    sources: &[u32],
    targets: &[u32],
    kinds: &[u8],
    mask: u8,
    u: usize,
    v: usize,
    room: &mut [u32],
    numbers: &mut [u32],
    words: &mut [u64],
    length: &mut usize,
) -> u32
    ensures { Walked (record { n = n; sources = sources.now; targets = targets.now; kinds = kinds.now; mask = mask; u = u; v = v; room = room.old; numbers = numbers.old; words = words.old }) length.old room.new numbers.new words.new (result, length.new) }
{
    let table = Table {
        n,
        sources,
        targets,
        kinds,
        mask,
    };
    match paths::path(&table, u, v, room, numbers, words) {
        Err(r) => u32::from(r),
        Ok(edges) => {
            *length = edges;
            0
        }
    }
}

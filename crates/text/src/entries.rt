// The entry lines: read once to judge them, once more to write the table.
ghost use Rattle.std.specs.Prelude.{◌≡◌};
ghost use Rattle.lines.specs.Pieces.{lines};
ghost use Rattle.lines.specs.Numbers.{content};
ghost use Rattle.text.specs.Market.{inside, entry_of, entries, as_reading};
ghost use Rattle.text.specs.Steps.{only_judged, FillAsk, Filled};

use crate::Size;
use graph::refusal::Refusal;
use lines::{numbers, pieces};

// An entry's edge.
#[derive(Clone, Copy, Debug, PartialEq, Eq)]
pub struct Edge {
    pub source: u32,
    pub target: u32,
}

// Is i the number of one of n vertices, counted from 1?
fn inside(i: u32, n: usize) -> bool
    ensures { result ≡ inside n i }
{
    1 <= i && i as usize <= n
}

// The edge of an entry line, or none of a blank line.
fn entry_of(line: &[u8], n: usize) -> Result<Option<Edge>, Refusal>
    ensures { as_reading result ≡ entry_of n (content line.now) }
{
    let Some(found) = numbers::row_of(line) else {
        return Err(Refusal::EntryFaulty);
    };
    if found.count == 0 {
        return Ok(None);
    }
    let [i, j, _] = found.numbers;
    if found.count == 2 && inside(i, n) && inside(j, n) {
        Ok(Some(Edge {
            source: i - 1,
            target: j - 1,
        }))
    } else {
        Err(Refusal::EntryFaulty)
    }
}

// Are the lines as many entries as there are to be edges, and blank lines?
pub fn check(text: &[u8], size: Size) -> Result<(), Refusal>
    ensures { as_reading result ≡ only_judged (entries size.n size.edges (lines text.now)) }
{
    let mut left = size.edges;
    for line in pieces::lines(text) {
        if entry_of(line, size.n)?.is_some() {
            if left == 0 {
                return Err(Refusal::EntryFaulty);
            }
            left -= 1;
        }
    }
    if left == 0 {
        Ok(())
    } else {
        Err(Refusal::EntryFaulty)
    }
}

// Writes the edges of entry lines that were judged right, up to the last edge.
pub fn fill(text: &[u8], size: Size, sources: &mut [u32], targets: &mut [u32])
    requires { FillAsk text.now size sources.old targets.old }
    ensures { Filled text.now size sources.old targets.old sources.new targets.new }
{
    let mut k = 0;
    for line in pieces::lines(text) {
        if k == size.edges {
            break;
        }
        if let Some(edge) = entry_of(line, size.n).unwrap_or(None) {
            sources[k] = edge.source;
            targets[k] = edge.target;
            k += 1;
        }
    }
}

// The lines up to the size line.
ghost use Rattle.std.specs.Prelude.{◌≡◌};
ghost use Rattle.lines.specs.Numbers.{content};
ghost use Rattle.lines.specs.Answers.{pieces_of};
ghost use Rattle.text.specs.Market.{is_comment, passed_over, size_of, as_reading};
ghost use Rattle.text.specs.Steps.{SizeLine, HeadSaid};

use crate::Size;
use graph::refusal::Refusal;
use lines::pieces::Pieces;
use lines::{numbers, pieces};

const BANNER: &[u8] = b"%%MatrixMarket matrix coordinate pattern general";

// The most vertices and edges that are taken, and the room for edges.
#[derive(Clone, Copy, Debug, PartialEq, Eq)]
pub struct Limits {
    pub most_vertices: usize,
    pub most_edges: usize,
    pub room: usize,
}

// What the size line says, and the text past it.
#[derive(Clone, Copy)]
pub struct Head<'a> {
    pub size: Size,
    pub rest: &'a [u8],
}

// A line that begins with `%`.
fn is_comment(line: &[u8]) -> bool
    ensures { result ≡ is_comment line.now }
{
    line.len() <= numbers::LONGEST_LINE && line.starts_with(b"%")
}

// A comment or a blank line.
fn passed_over(line: &[u8]) -> bool
    ensures { result ≡ passed_over line.now }
{
    is_comment(line) || numbers::row_of(line).is_some_and(|found| found.count == 0)
}

// The first line that is not passed over.
fn size_line<'a>(lines: &mut Pieces<'a>) -> Option<&'a [u8]>
    ensures first { SizeLine (pieces_of lines.old) result (pieces_of lines.new) }
    ensures stop { lines.new.stop ≡ lines.old.stop }
{
    lines.find(|line| !passed_over(line))
}

// The size line's numbers, with the tests in their order.
fn size_of(line: &[u8], limits: Limits) -> Result<Size, Refusal>
    ensures { as_reading result ≡ size_of limits (content line.now) }
{
    let Some(found) = numbers::row_of(line) else {
        return Err(Refusal::SizeLineFaulty);
    };
    let [rows, columns, edges] = found.numbers;
    if found.count != 3 || rows != columns {
        return Err(Refusal::SizeLineFaulty);
    }
    let n = rows as usize;
    let edges = edges as usize;
    if limits.most_vertices < n {
        return Err(Refusal::TooManyVertices);
    }
    if limits.most_edges < edges {
        return Err(Refusal::TooManyEdges);
    }
    if limits.room < edges {
        return Err(Refusal::WrongLength);
    }
    Ok(Size { n, edges })
}

// The lines up to the size line, judged in order.
pub fn head_of(text: &[u8], limits: Limits) -> Result<Head<'_>, Refusal>
    ensures { HeadSaid limits text.now result }
{
    let mut lines = pieces::lines(text);
    let Some(first) = lines.next() else {
        return Err(Refusal::FirstLineFaulty);
    };
    if first != BANNER {
        return Err(Refusal::FirstLineFaulty);
    }
    let Some(line) = size_line(&mut lines) else {
        return Err(Refusal::SizeLineFaulty);
    };
    let size = size_of(line, limits)?;
    Ok(Head {
        size,
        rest: lines.rest,
    })
}

// A lent list of bytes in pieces, each ended by one byte: a text's lines, ended by LF, and a line's words, ended by a space.
ghost use Rattle.std.specs.Prelude.{◌≡◌};
ghost use Rattle.std.specs.Iterator.{YieldsFirstRef, item_count};
ghost use Rattle.lines.specs.Pieces.{split, LF, lines};
ghost use Rattle.lines.specs.Answers.{Cut, pieces_of};

pub const LF: u8 = b'\n';

// The pieces of what is left of a list, in their order. A piece is a part of the list, and what ends it is left out.
#[derive(Drop)]
pub struct Pieces<'a> {
    pub rest: &'a [u8],
    pub stop: u8,
}

impl<'a> Pieces<'a> {
    pub fn new(text: &'a [u8], stop: u8) -> Pieces<'a>
        ensures pieces { pieces_of result ≡ split stop text.now }
        ensures stop { result.stop ≡ stop }
    {
        Pieces { rest: text, stop }
    }
}

impl<'a> Iterator for Pieces<'a> {
    type Item = &'a [u8];

    ghost next_gives = { λ p x q. YieldsFirstRef pieces_of p x q × (q.stop ≡ p.stop) };

    ghost remaining = { item_count pieces_of };

    fn next(&mut self) -> Option<&'a [u8]> {
        if self.rest.is_empty() {
            return None;
        }
        let (piece, rest) = cut(self.rest, self.stop);
        self.rest = rest;
        Some(piece)
    }
}

// What stands before the first byte that ends a piece, and what stands past it. By a `for`, since `position` was slower.
pub fn cut(text: &[u8], stop: u8) -> (&[u8], &[u8])
    ensures { Cut stop text.now result.0.now result.1.now }
{
    for (i, b) in text.iter().enumerate() {
        if *b == stop {
            return (&text[..i], &text[i + 1..]);
        }
    }
    (text, &[])
}

// The lines of a text.
pub fn lines(text: &[u8]) -> Pieces<'_>
    ensures pieces { pieces_of result ≡ lines text.now }
    ensures stop { result.stop ≡ LF }
{
    Pieces::new(text, LF)
}

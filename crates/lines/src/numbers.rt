// The numbers of a line: words of 1 to 9 digits with spaces between.
ghost use Rattle.std.specs.Prelude.{◌≡◌, List, [], ◌∷◌, ◌++◌, ℕ, ◌≤◌};
ghost use Rattle.lines.specs.Numbers.{longest_line, number_of, content};
ghost use Rattle.lines.specs.Answers.{found_of, shown};

use crate::pieces::Pieces;

pub const SPACE: u8 = b' ';

pub const MOST_DIGITS: usize = 9;

pub const LONGEST_LINE: usize = 1024;

// A word as a number, if it is one.
pub fn number_of(word: &[u8]) -> Option<u32>
    ensures { result ≡ number_of word.now }
{
    if word.is_empty() || MOST_DIGITS < word.len() {
        return None;
    }
    let mut value: u32 = 0;
    for b in word {
        let b'0'..=b'9' = *b else {
            return None;
        };
        value = value * 10 + u32::from(*b - b'0');
    }
    Some(value)
}

// How many numbers were found, and the first three; 0 where there is none.
#[derive(Clone, Copy, Debug, PartialEq, Eq)]
pub struct Found {
    pub count: usize,
    pub numbers: [u32; 3],
}

impl Found {
    // The numbers found, and one more. The places are named one by one, since `numbers[count]` was slower: so the three stay in registers.
    pub fn and(mut self, value: u32) -> Found
        requires { self.count ≤ longest_line }
        ensures { (vs : List ℕ) → self ≡ found_of vs → result ≡ found_of (vs ++ (value ∷ [])) }
    {
        match self.count {
            0 => self.numbers[0] = value,
            1 => self.numbers[1] = value,
            2 => self.numbers[2] = value,
            _ => {}
        }
        self.count += 1;
        self
    }
}

// The numbers of a line, if it is not faulty.
pub fn row_of(line: &[u8]) -> Option<Found>
    ensures { result ≡ shown (content line.now) }
{
    if LONGEST_LINE < line.len() {
        return None;
    }
    let mut found = Found {
        count: 0,
        numbers: [0; 3],
    };
    for word in Pieces::new(line, SPACE) {
        if !word.is_empty() {
            found = found.and(number_of(word)?);
        }
    }
    Some(found)
}

// The member at a place of a set, counted from 0 in rising order.
ghost use Rattle.std.specs.Prelude.{◌≡◌, ◌+◌, ◌*◌, ◌<◌};
ghost use Rattle.graph.specs.Numbers.{tally};
ghost use Rattle.graph.specs.Pivot.{member};
ghost use Rattle.graph.specs.Sets.{bit, members};
ghost use Rattle.pivot.specs.Place.{Within, From, Found};

// How many words are counted at once.
const STRIDE: usize = 16;

// In word i, the member with rest members between: bit by bit, and no branch hangs on a bit alone.
fn from(words: &[u64], n: usize, i: usize, rest: usize) -> usize
    requires from { From words.now n (i * 64) rest }
    requires held { tally (bit words.now) (i * 64) + rest < tally (bit words.now) ((i + 1) * 64) }
    ensures { Found words.now n (i * 64) rest result }
{
    let word = &words[i..i + 1];
    let mut k = rest;
    for b in 0..64 {
        let ones = usize::from(sets::has(word, b));
        if k < ones {
            return i * 64 + b;
        }
        k -= ones;
    }
    n
}

// From word first on, the member with rest members between: word by word, then within the word.
fn within(words: &[u64], n: usize, first: usize, rest: usize) -> usize
    requires { From words.now n (first * 64) rest }
    ensures { Found words.now n (first * 64) rest result }
{
    let mut left = rest;
    for i in first..words.len() {
        let ones = words[i].count_ones() as usize;
        if left < ones {
            return from(words, n, i, left);
        }
        left -= ones;
    }
    n
}

// The member at place j: by counts of ones some words at a time, then within those words. Out of line, or its loops step more counters for what its caller does next.
#[inline(never)]
pub fn select(words: &[u64], n: usize, j: usize) -> usize
    requires { Within words.now n j }
    ensures { result ≡ member n (members n words.now) j }
{
    let mut rest = j;
    for first in (0..words.len()).step_by(STRIDE) {
        let end = words.len().min(first + STRIDE);
        let ones = sets::size(&words[first..end]);
        if rest < ones {
            return within(words, n, first, rest);
        }
        rest -= ones;
    }
    n
}

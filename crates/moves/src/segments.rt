// The stack's segments: each is a part of one component as far as the search has seen. Joining them, and closing the last.
ghost use Rattle.std.specs.Prelude.{◌≡◌, ◌<◌, length};
ghost use Rattle.moves.specs.Moves.{Stays, ScanAsk, Scanned, CutAsk, Cut, BoundAsk, Bound, Lowest, PaintAsk, Painted, CloseAsk, Closed};

use crate::{Regions, Stand};

// How many of the rising fronts are at most y: those beyond are taken off. From behind, so that each turn takes one off for good.
fn cut(fronts: &[u32], y: u32) -> usize
    requires { CutAsk y fronts.now }
    ensures { Cut y fronts.now result }
{
    let mut k = fronts.len();
    while y < fronts[k - 1] {
        k -= 1;
    }
    k
}

// How many of the fronts are left where a vertex of the colour y is met, which is seen.
fn bound(n: usize, fronts: &[u32], y: u32) -> usize
    requires { BoundAsk n y fronts.now }
    ensures { Bound n y fronts.now result }
{
    if (y as usize) < n {
        return fronts.len();
    }
    cut(fronts, y)
}

// The path's last goes past its edges to vertices that are seen; where one is on the stack, the segments behind its own join it.
pub fn scan(w: &[u32], at: Regions, label: &[u32], stand: Stand) -> Stand
    requires { ScanAsk at.n at.base stand.cursor stand.end stand.fronts label.now w.now }
    ensures stands { (result.stack ≡ stand.stack) × Stays stand result }
    ensures scanned { Scanned at.n at.base stand.cursor stand.end stand.fronts label.now w.now result.cursor result.fronts }
{
    let n = at.n;
    let first = at.base + n;
    let mut fronts = stand.fronts;
    for cursor in stand.cursor..stand.end {
        let y = label[w[n + 1 + cursor] as usize];
        if y as usize == n {
            return Stand {
                fronts,
                cursor,
                ..stand
            };
        }
        fronts = bound(n, &w[first..first + fronts], y);
    }
    Stand {
        fronts,
        cursor: stand.end,
        ..stand
    }
}

// The smallest of the members.
fn lowest(members: &[u32]) -> u32
    requires { 0 < length members.now }
    ensures { Lowest 0 (length members.now) members.now result }
{
    members.iter().copied().min().unwrap_or(0)
}

// The members get the colour l.
fn paint(label: &mut [u32], members: &[u32], l: u32)
    requires { PaintAsk 0 (length members.now) label.old members.now }
    ensures { Painted 0 (length members.now) l members.now label.old label.new }
{
    for v in members {
        label[*v as usize] = l;
    }
}

// If the path's last begins the last segment, who stands in it gets the smallest of them for a colour and leaves the stack.
pub fn close(w: &[u32], at: Regions, label: &mut [u32], stand: Stand) -> Stand
    requires { CloseAsk at.n at.base stand.top stand.stack stand.fronts label.old w.now }
    ensures stands { (result.cursor ≡ stand.cursor) × Stays stand result }
    ensures closed { Closed at.n at.base stand.top stand.stack stand.fronts w.now label.old label.new result.stack result.fronts }
{
    let y = label[stand.top];
    if y != w[at.base + at.n + (stand.fronts - 1)] {
        return stand;
    }
    let first = y as usize - (at.n + 1);
    let members = &w[at.base + first..at.base + stand.stack];
    paint(label, members, lowest(members));
    Stand {
        stack: first,
        fronts: stand.fronts - 1,
        ..stand
    }
}

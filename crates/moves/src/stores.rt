// What a step of the search stores and reads: stack, fronts and path stand in w from the base on.
ghost use Rattle.std.specs.Prelude.{◌≡◌};
ghost use Rattle.moves.specs.Moves.{BeginAsk, begun_colours, begun, EnterAsk, entered_colours, entered, entered_stand, BackAsk, Backed};

use crate::{Regions, Stand};

// r is put on the empty stack.
pub fn begin(w: &mut [u32], at: Regions, label: &mut [u32], r: usize)
    requires { BeginAsk at.n at.base r label.old w.old }
    ensures { (label.new ≡ begun_colours at.n r label.old) × (w.new ≡ begun at.n at.base r w.old) }
{
    label[r] = (at.n + 1) as u32;
    w[at.base] = r as u32;
    w[at.base + at.n] = (at.n + 1) as u32;
}

// The path's last waits at the edge behind the cursor; the vertex at the cursor ends the path, on the stack as a segment of its own.
pub fn enter(w: &mut [u32], at: Regions, label: &mut [u32], stand: Stand) -> Stand
    requires { EnterAsk at.n at.base stand.top stand.cursor stand.stack stand.fronts stand.path label.old w.old }
    ensures { (label.new ≡ entered_colours at.n stand.cursor stand.stack w.old label.old) × (w.new ≡ entered at.n at.base stand.top stand.cursor stand.stack stand.fronts stand.path w.old) × (result ≡ entered_stand at.n stand.cursor stand.stack stand.fronts stand.path stand.steps w.old) }
{
    let n = at.n;
    let b = at.base;
    let x = w[n + 1 + stand.cursor] as usize;
    let cursor = w[x] as usize;
    let end = w[x + 1] as usize;
    let colour = (n + 1 + stand.stack) as u32;
    label[x] = colour;
    w[b + stand.stack] = x as u32;
    w[b + n + stand.fronts] = colour;
    w[b + 2 * n + 2 * (stand.path - 1)] = stand.top as u32;
    w[b + 2 * n + 2 * (stand.path - 1) + 1] = (stand.cursor + 1) as u32;
    Stand {
        stack: stand.stack + 1,
        fronts: stand.fronts + 1,
        path: stand.path + 1,
        top: x,
        cursor,
        end,
        steps: stand.steps,
    }
}

// The search goes back from the path's last: the one before it goes on, if there is one.
pub fn back(w: &[u32], at: Regions, stand: Stand) -> Stand
    requires { BackAsk at.n at.base stand.path w.now }
    ensures { Backed at.n at.base stand.stack stand.fronts stand.path stand.steps w.now result }
{
    if stand.path == 1 {
        return Stand {
            path: 0,
            top: 0,
            cursor: 0,
            end: 0,
            ..stand
        };
    }
    let before = at.base + 2 * at.n + 2 * (stand.path - 2);
    let u = w[before] as usize;
    Stand {
        path: stand.path - 1,
        top: u,
        cursor: w[before + 1] as usize,
        end: w[u + 1] as usize,
        ..stand
    }
}

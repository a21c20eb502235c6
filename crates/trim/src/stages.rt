// A set becomes a colour and a chain of places, the part is trimmed, and what has kept the colour becomes a set.
ghost use Rattle.graph.specs.Table.{graph_of};
ghost use Rattle.paint.specs.Colours.{Coloured};
ghost use Rattle.sets.specs.Sizes.{Words};
ghost use Rattle.trim.specs.Stages.{ColourAsk, hue, StringAsk, Strung, CollectAsk, Collected, RunAsk, Ran};

use graph::table::Table;
use index::build;
use memory::layout::Layout;

// Each vertex is coloured n if it is in the part, n + 1 if not.
fn colour(w: &mut [u32], at: Layout, part: &[u64])
    requires { ColourAsk at.n at.base part.now w.old }
    ensures { Coloured at.n at.base (hue at.n part.now) w.old w.new }
{
    for v in 0..at.n {
        w[at.base + v] = (at.n + 1) as u32 - u32::from(sets::has(part, v));
    }
}

// The order is that of the numbers, and the chain of the colour q goes through it. Its first place, n if there is none.
fn string(w: &mut [u32], at: Layout, q: u32) -> usize
    requires { StringAsk at.n at.base w.old }
    ensures { Strung at.n at.base q 0 result w.old w.new }
{
    let mut y = at.n;
    for i in (0..at.n).rev() {
        w[at.order() + i] = i as u32;
        w[at.chains() + i] = y as u32;
        if w[at.base + i] == q {
            y = i;
        }
    }
    y
}

// What has the colour q is added to the set.
fn collect(w: &[u32], at: Layout, q: u32, left: &mut [u64])
    requires { CollectAsk at.n at.base w.now left.old }
    ensures { Collected at.n at.base q w.now left.old left.new }
{
    for (v, colour) in w[at.base..at.base + at.n].iter().enumerate() {
        if *colour == q {
            sets::add(left, v);
        }
    }
}

// The part is trimmed; the set `left` becomes what is left of it.
pub fn run(table: &Table, part: &[u64], w: &mut [u32], left: &mut [u64])
    requires { RunAsk (graph_of table.now) table.now.kinds.now part.now w.old left.old }
    ensures fit { Words left.new }
    ensures ran { Ran (graph_of table.now) part.now w.old left.old w.new left.new }
{
    let n = table.n;
    let m = table.sources.len();
    let at = Layout {
        n,
        m,
        base: 2 * (n + 1 + m),
    };
    let q = n as u32;
    build::both(table, w);
    colour(w, at, part);
    let h = string(w, at, q);
    prune::prune(w, at, h, q);
    memory::zero_words(left, part.len());
    collect(w, at, q, left);
}

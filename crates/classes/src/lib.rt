// Classes of labels: each is searched from its label, inside the class.
#![tactic(auto)]

ghost use Rattle.std.specs.Prelude.{◌≡◌, ◌+◌, ◌≤◌, ◌<◌, length};
ghost use Rattle.graph.specs.Arrows.{Some, Every};
ghost use Rattle.classes.specs.Search.{Owned, ColourAsk, Coloured, ClassAsk, Classed, AllFound, DistancesAsk, Measured};

use checker::checks;
use memory::layout::Direction;
use paint::distances as measuring;

// Does every vertex pass check 1?
pub fn own_labels(label: &[u32]) -> bool
    ensures { Owned (length label.now) label.now result }
{
    (0..label.len()).all(|v| checks::labelled(label, v))
}

// Each vertex gets the colour of its class, n + 1 + its label: no distance is as high.
fn colour(w: &mut [u32], along: Direction, label: &[u32])
    requires { ColourAsk along.n label.now along.base w.old }
    ensures { Coloured along.n label.now along.base along.n w.old w.new }
{
    for (v, l) in label.iter().enumerate() {
        w[along.base + v] = (along.n + 1) as u32 + *l;
    }
}

// If l is a label, the vertices of its class get their distances from it.
fn class(w: &mut [u32], along: Direction, label: &[u32], l: usize)
    requires { Some along.n (λ g. ClassAsk g label.now along.index along.base l w.old) × (l < along.n) }
    ensures { Every along.n (λ g. ClassAsk g label.now along.index along.base l w.old → Classed g label.now along.base (l + 1) w.old w.new) }
{
    if label[l] as usize != l {
        return;
    }
    measuring::measure(w, along, l, (along.n + 1 + l) as u32);
}

// One class after the other.
fn classes(w: &mut [u32], along: Direction, label: &[u32])
    requires { Some along.n (λ g. ClassAsk g label.now along.index along.base 0 w.old) }
    ensures { Every along.n (λ g. ClassAsk g label.now along.index along.base 0 w.old → Classed g label.now along.base along.n w.old w.new) }
{
    for l in 0..along.n {
        class(w, along, label, l);
    }
}

// Has every vertex a distance?
fn found(w: &[u32], along: Direction) -> bool
    requires { along.base + along.n ≤ length w.now }
    ensures { AllFound along.n along.base w.now result }
{
    w[along.base..along.base + along.n]
        .iter()
        .all(|y| *y as usize <= along.n)
}

// The distances from the labels; false if some vertex is not reached inside its class.
pub fn distances(w: &mut [u32], along: Direction, label: &[u32]) -> bool
    requires { Some along.n (λ g. DistancesAsk g label.now along.index along.base w.old) }
    ensures { Every along.n (λ g. DistancesAsk g label.now along.index along.base w.old → Measured g label.now along.base w.old w.new result) }
{
    colour(w, along, label);
    classes(w, along, label);
    found(w, along)
}

// The search: colours stand in the label column, the index in w, and behind it stack, fronts and path.
ghost use Rattle.graph.specs.Arrows.{Some, Every};
ghost use Rattle.linear.specs.Search.{StepAsk, Stepped, RunAsk, Ran, RootAsk, Rooted, RootsAsk, Searched};

use moves::{Regions, Stand, segments, stores};

// One step at the path's last, whose edges from the cursor on are not looked at: a vertex is entered, or the search goes back.
fn step(w: &mut [u32], at: Regions, label: &mut [u32], stand: Stand) -> Stand
    requires { Some at.n (λ g. StepAsk g at.base stand label.old w.old) }
    ensures { Every at.n (λ g. StepAsk g at.base stand label.old w.old → Stepped g at.base stand label.old w.old label.new w.new result) }
{
    let met = segments::scan(w, at, label, stand);
    // a turn of run's loop, those of scan and of cut
    let looked = 1 + (met.cursor - stand.cursor) + (stand.fronts - met.fronts);
    if met.cursor < stand.end {
        return stores::enter(
            w,
            at,
            label,
            Stand {
                steps: looked + 1,
                ..met
            },
        );
    }
    let left = segments::close(w, at, label, met);
    let closed = 2 * (met.stack - left.stack) + (met.fronts - left.fronts);
    stores::back(
        w,
        at,
        Stand {
            steps: looked + closed,
            ..left
        },
    )
}

// Enters and goes back, from r alone on the stack, until the path is at its end. The steps of all.
fn run(w: &mut [u32], at: Regions, label: &mut [u32], r: usize) -> usize
    requires { Some at.n (λ g. RunAsk g at.base r label.old w.old) }
    ensures { Every at.n (λ g. RunAsk g at.base r label.old w.old → Ran g at.base r label.old w.old label.new w.new result) }
{
    let mut stand = Stand {
        stack: 1,
        fronts: 1,
        path: 1,
        top: r,
        cursor: w[r] as usize,
        end: w[r + 1] as usize,
        steps: 0,
    };
    let mut steps = 0;
    while 0 < stand.path {
        stand = step(w, at, label, stand);
        steps += stand.steps;
    }
    steps
}

// A search from r, if it is not seen. Its steps.
fn root(w: &mut [u32], at: Regions, label: &mut [u32], r: usize) -> usize
    requires { Some at.n (λ g. RootAsk g at.base r label.old w.old) }
    ensures { Every at.n (λ g. RootAsk g at.base r label.old w.old → Rooted g at.base r label.old w.old label.new w.new result) }
{
    if label[r] as usize != at.n {
        return 1;
    }
    stores::begin(w, at, label, r);
    run(w, at, label, r) + 2
}

// A search from every vertex. The steps of all.
pub fn roots(w: &mut [u32], at: Regions, label: &mut [u32]) -> usize
    requires { Some at.n (λ g. RootsAsk g at.base label.old w.old) }
    ensures { Every at.n (λ g. RootsAsk g at.base label.old w.old → Searched g at.base label.old w.old label.new w.new result) }
{
    let mut steps = 0;
    for r in 0..at.n {
        steps += root(w, at, label, r);
    }
    steps
}

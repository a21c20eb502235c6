// How many vertices share each label, counted in blocks of label values: one pass over the column a block.
ghost use Rattle.std.specs.Prelude.{◌≡◌, ◌+◌, ◌≤◌, ◌<◌, length, get_or};
ghost use Rattle.graph.specs.Limits.{most_vertices};
ghost use Rattle.graph.specs.Summary.{sharing};
ghost use Rattle.summary.specs.Counts.{Low, Added, Fresh, Counted, Folded, totals_of, joined};

const BLOCK: usize = 4096;

// Labels shared by two or more vertices, and the most vertices that share one.
#[derive(Clone, Copy, Debug, PartialEq, Eq)]
pub struct Totals {
    pub rings: u32,
    pub largest: u32,
}

const NOTHING: Totals = Totals {
    rings: 0,
    largest: 0,
};

impl Totals {
    // These totals and those of other labels.
    fn and(self, other: Totals) -> Totals
        requires { self.rings + other.rings ≤ most_vertices }
        ensures { result ≡ joined self other }
    {
        Totals {
            rings: self.rings + other.rings,
            largest: self.largest.max(other.largest),
        }
    }

    // The totals of one label that so many vertices share.
    fn of(count: u32) -> Totals
        ensures { result ≡ totals_of count }
    {
        Totals {
            rings: u32::from(2 <= count),
            largest: count,
        }
    }
}

// Counts the label l if it stands in the block that begins at low.
fn add(counts: &mut [u32], low: usize, l: usize)
    requires { Low counts.old }
    ensures { Added low l counts.old counts.new }
{
    if l < low {
        return;
    }
    let j = l - low;
    if counts.len() <= j {
        return;
    }
    counts[j] += 1;
}

// Counts the labels of the block that begins at low.
fn count(label: &[u32], low: usize, counts: &mut [u32])
    requires { Fresh label.now counts.old }
    ensures { Counted label.now low counts.new }
{
    for l in label {
        add(counts, low, *l as usize);
    }
}

// The totals of the labels that the counters are of.
fn fold(counts: &[u32]) -> Totals
    requires { length counts.now ≤ most_vertices }
    ensures { Folded (λ j. get_or counts.now j 0) (length counts.now) result }
{
    let mut totals = NOTHING;
    for c in counts {
        totals = totals.and(Totals::of(*c));
    }
    totals
}

// The totals of the k labels from low on.
fn block(label: &[u32], low: usize, k: usize) -> Totals
    requires { (length label.now ≤ most_vertices) × (k ≤ 4096) }
    ensures { Folded (λ j. sharing label.now (low + j)) k result }
{
    let mut counts = [0u32; BLOCK];
    count(label, low, &mut counts);
    fold(&counts[..k])
}

// The totals of all labels below the number of vertices.
pub fn all(label: &[u32]) -> Totals
    requires { length label.now ≤ most_vertices }
    ensures { Folded (sharing label.now) (length label.now) result }
{
    let n = label.len();
    let mut totals = NOTHING;
    for low in (0..n).step_by(BLOCK) {
        totals = totals.and(block(label, low, BLOCK.min(n - low)));
    }
    totals
}

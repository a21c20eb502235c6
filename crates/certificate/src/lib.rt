// The certificate writer: it reads the labels and fills the other five columns.
#![tactic(auto)]

ghost use Rattle.std.specs.Prelude.{◌≡◌, ◌+◌, ◌*◌};
ghost use Rattle.graph.specs.Reasons.{said};
ghost use Rattle.certificate.specs.Work.{HandAsk, Handed};
ghost use Rattle.certificate.specs.Promise.{lent, call_of, lends, early_refusal, Promise};

use checker::Columns;
use graph::limits;
use graph::refusal::Refusal;
use graph::table::Table;
use memory::writer::{IN_EDGES, OUT_EDGES, RANKS};

mod entries;
mod work;

// The first of 1, 2, 21, 3, 4, 22, 5, 6 that applies, whatever the mask.
fn refusal(table: &Table, columns: &Columns, numbers: &[u32], words: &[u64]) -> Result<(), Refusal>
    ensures { said result ≡ early_refusal (call_of table.now columns.now.label.now (lends columns.now numbers.now words.now)) }
{
    checker::refusal(table, columns)?;
    if limits::lacking(table.n, table.sources.len(), numbers.len(), words.len()) {
        return Err(Refusal::MemoryShort);
    }
    Ok(())
}

// The five columns become what stands in their regions. They stay side by side: of a struct of `&mut` slices a clause could name what each ends with by its place alone.
fn hand(
    n: usize,
    m: usize,
    numbers: &[u32],
    rank: &mut [u32],
    in_edge: &mut [u32],
    in_distance: &mut [u32],
    out_edge: &mut [u32],
    out_distance: &mut [u32],
)
    requires { HandAsk n m numbers.now rank.old in_edge.old in_distance.old out_edge.old out_distance.old }
    ensures { Handed n (2 * (n + 1 + m)) numbers.now rank.old rank.new in_edge.old in_edge.new in_distance.old in_distance.new out_edge.old out_edge.new out_distance.old out_distance.new }
{
    let base = 2 * (n + 1 + m);
    memory::copy(numbers, base + RANKS * n, rank);
    memory::copy(numbers, base + IN_EDGES * n, in_edge);
    memory::copy(numbers, base, in_distance);
    memory::copy(numbers, base + OUT_EDGES * n, out_edge);
    memory::copy(numbers, base + n, out_distance);
}

// Five columns from the labels: shortest distances from and to the label, the smallest counted edges that fit them, the ranks.
pub fn write(
    table: &Table,
    label: &[u32],
    rank: &mut [u32],
    in_edge: &mut [u32],
    in_distance: &mut [u32],
    out_edge: &mut [u32],
    out_distance: &mut [u32],
    numbers: &mut [u32],
    words: &mut [u64],
) -> Result<(), Refusal>
    ensures { Promise (call_of table.now label.now (lent rank.old in_edge.old in_distance.old out_edge.old out_distance.old numbers.old words.old)) (said result) (lent rank.new in_edge.new in_distance.new out_edge.new out_distance.new numbers.new words.new) }
{
    let columns = Columns {
        label,
        rank,
        in_edge,
        in_distance,
        out_edge,
        out_distance,
    };
    refusal(table, &columns, numbers, words)?;
    let n = table.n;
    let m = table.sources.len();
    if !work::work(table, label, numbers) {
        memory::clear(n, m, numbers, words);
        return Err(Refusal::WrongLabels);
    }
    hand(
        n,
        m,
        numbers,
        rank,
        in_edge,
        in_distance,
        out_edge,
        out_distance,
    );
    memory::clear(n, m, numbers, words);
    Ok(())
}

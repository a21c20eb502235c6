// The checker of a certificate: six columns against the edge table, by five checks.
#![tactic(auto)]

ghost use Rattle.std.specs.Prelude.{ℕ, ◌≡◌};
ghost use Rattle.graph.specs.Checker.{verdict};
ghost use Rattle.graph.specs.Limits.{wrong_length};
ghost use Rattle.graph.specs.Refusal.{given};
ghost use Rattle.graph.specs.Reasons.{said};
ghost use Rattle.graph.specs.Table.{graph_of};
ghost use Rattle.checker.specs.Contract.{label_and_rank, columns_of, EdgesAsk, Ready};
ghost use Rattle.checker.specs.Promise.{call_of, checker_refusal, judged, edge_verdict, wrong_size, Promise};

use graph::refusal::Refusal;
use graph::table::Table;

pub mod checks;

// What stands in an edge column where there is no edge.
pub const NO_EDGE: u32 = u32::MAX;

// The six columns of a certificate.
#[derive(Clone, Copy)]
pub struct Columns<'a> {
    pub label: &'a [u32],
    pub rank: &'a [u32],
    pub in_edge: &'a [u32],
    pub in_distance: &'a [u32],
    pub out_edge: &'a [u32],
    pub out_distance: &'a [u32],
}

impl<'a> Columns<'a> {
    // Is some column not n long?
    fn wrong_size(&self, n: usize) -> bool
        ensures { result ≡ wrong_size n (columns_of self.now) }
    {
        let all = [
            self.label,
            self.rank,
            self.in_edge,
            self.in_distance,
            self.out_edge,
            self.out_distance,
        ];
        all.iter().any(|column| column.len() != n)
    }

    // 5 if some column is not n long.
    fn check(&self, n: usize) -> Result<(), Refusal>
        ensures { said result ≡ given wrong_length (wrong_size n (columns_of self.now)) }
    {
        if self.wrong_size(n) {
            return Err(Refusal::WrongLength);
        }
        Ok(())
    }
}

#[derive(Clone, Copy, Debug, PartialEq, Eq)]
pub enum Verdict {
    Accepted,
    // the first failed check with its vertex, for check 5 its edge
    Failed { check: u32, place: usize },
}

// The verdict of check 5 on all edges.
fn judge_edges(table: &Table, label: &[u32], rank: &[u32]) -> Verdict
    requires { EdgesAsk (graph_of table.now) table.now.kinds.now label.now rank.now }
    ensures { judged result ≡ edge_verdict (graph_of table.now) (label_and_rank label.now rank.now) }
{
    for e in 0..table.sources.len() {
        if !checks::rises(table, label, rank, e) {
            return Verdict::Failed { check: 5, place: e };
        }
    }
    Verdict::Accepted
}

// The verdict on columns that are not refused: the vertices by checks 1 to 4, then the edges by check 5.
fn judge(table: &Table, columns: &Columns) -> Verdict
    requires { Ready (graph_of table.now) table.now.kinds.now (columns_of columns.now) }
    ensures { judged result ≡ verdict (graph_of table.now) (columns_of columns.now) }
{
    for v in 0..table.n {
        if let Some(k) = checks::fault(table, columns, v) {
            return Verdict::Failed { check: k, place: v };
        }
    }
    judge_edges(table, columns.label, columns.rank)
}

// The first of 1, 2, 21, 3, 4, 22, 5 that applies, whatever the mask.
pub fn refusal(table: &Table, columns: &Columns) -> Result<(), Refusal>
    ensures { said result ≡ checker_refusal (call_of table.now columns.now) }
{
    table.check()?;
    columns.check(table.n)
}

// Accepted, or the first failed check with its place.
pub fn check(table: &Table, columns: &Columns) -> Result<Verdict, Refusal>
    ensures { Promise (call_of table.now columns.now) result }
{
    refusal(table, columns)?;
    Ok(judge(table, columns))
}

// The beginning of a decomposition: the indexes, the order, and the whole collection as the first part.
ghost use Rattle.std.specs.Prelude.{◌≡◌, ◌≤◌, length};
ghost use Rattle.graph.specs.Limits.{most_vertices, InLimits};
ghost use Rattle.graph.specs.Pivot.{list_of};
ghost use Rattle.graph.specs.Table.{graph_of};
ghost use Rattle.pivot.specs.Kinds.{kind_of};
ghost use Rattle.pivot.specs.Order.{Ordered};
ghost use Rattle.pivot.specs.Placing.{Room};
ghost use Rattle.decompose.specs.Begin.{layout_of, BeginAsk, StartAsk, Started, first_one, Begun};

use crate::accept::Choice;
use graph::limits;
use graph::table::Table;
use index::build;
use machine::{Machine, NONE};
use memory::layout::Layout;
use pivot::chooser::{Chooser, Pivots};
use pivot::order;

// Where the indexes and regions of a table stand.
pub fn layout(table: &Table) -> Layout
    requires { InLimits table.now.n (length table.now.sources.now) }
    ensures { result ≡ layout_of (graph_of table.now) }
{
    Layout {
        n: table.n,
        m: table.sources.len(),
        base: 2 * (table.n + 1 + table.sources.len()),
    }
}

// The order of the caller's list; the other kinds of pivots know no list, and their order is the rising one.
fn arrange(w: &mut [u32], at: Layout, pivots: Pivots, list: &[u32])
    requires { Room at.n at.base w.old }
    ensures { Ordered at.n (list_of (kind_of pivots) list.now) at.base w.old w.new }
{
    match pivots {
        Pivots::Listed => order::arrange(list, w, at),
        Pivots::Lowest | Pivots::Drawn => order::rising(w, at),
    }
}

// The indexes and the order are made, and the whole collection is the one part, pending.
fn start(table: &Table, pivots: Pivots, list: &[u32], w: &mut [u32], words: &mut [u64])
    requires { StartAsk (graph_of table.now) table.now.kinds.now w.old words.old }
    ensures { Started (graph_of table.now) (kind_of pivots) list.now w.old words.old w.new words.new }
{
    let at = layout(table);
    build::both(table, w);
    arrange(w, at, pivots, list);
    memory::fill(w, at.base, at.n, at.n as u32);
    memory::count(w, at.chains(), at.n, 1);
    memory::fill(w, at.lasts(), 3 * at.n + 2, at.n as u32);
    memory::fill(w, at.pending(), 1, 0);
    memory::zero_words(words, limits::words_needed(at.n));
}

// The whole collection is pending, to be sliced by method 1.
fn first(n: usize, choice: Choice, chooser: Chooser) -> Machine
    requires { n ≤ most_vertices }
    ensures { result ≡ first_one n choice chooser }
{
    Machine {
        next: None,
        part: NONE,
        chooser,
        made: 0,
        order: choice.order,
        cleared: 0,
        oldest: 0,
        count: 0,
        given: 0,
        pending: 1,
        method: choice.method,
        top: n + 1,
    }
}

// The machine before its first turn; without vertices nothing is left to do.
pub fn begin(
    table: &Table,
    choice: Choice,
    chooser: Chooser,
    list: &[u32],
    w: &mut [u32],
    words: &mut [u64],
) -> Machine
    requires { BeginAsk (graph_of table.now) table.now.kinds.now w.old words.old }
    ensures { Begun (graph_of table.now) choice chooser list.now w.old words.old w.new words.new result }
{
    let whole = first(table.n, choice, chooser);
    if table.n == 0 {
        return whole;
    }
    start(table, choice.pivots, list, w, words);
    whole.aimed(table.n)
}

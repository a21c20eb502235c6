// P1 to P3: the labels that the decomposer gives; then with and without mentions.
use crate::out;
use crate::t::Collection;
use graph::limits;
use graph::table::Table;
use std::io;

fn decompose_table(
    rt: &impl Print,
    name: &str,
    table: &Table,
    label: &mut [u32],
) -> io::Result<()> {
    let mut numbers = [9u32; 102];
    let mut words = [9u64; 6];
    match decompose::plain::plain(table, label, &mut numbers, &mut words) {
        Ok(_) => out::row(rt, name, label),
        Err(r) => out::refused(rt, name, r),
    }
}

// n vertices and no edge.
fn bare(n: usize) -> Table<'static> {
    Table {
        n,
        sources: &[],
        targets: &[],
        kinds: &[],
        mask: limits::FULL_MASK,
    }
}

pub fn run(rt: &impl Print) -> io::Result<()> {
    decompose_table(
        rt,
        "P1 labels of T",
        &Collection::whole().table(),
        &mut [9; 6],
    )?;
    decompose_table(rt, "P2 labels of n = 0", &bare(0), &mut [])?;
    decompose_table(rt, "P3 labels of n = 1, no edge", &bare(1), &mut [9; 1])
}

pub fn mentions(rt: &impl Print) -> io::Result<()> {
    let mut label = [9u32; 6];
    decompose_table(
        rt,
        "labels of T with mentions",
        &Collection::with_mentions().table(),
        &mut label,
    )?;
    decompose_table(
        rt,
        "labels of T without mentions",
        &Collection::without_mentions().table(),
        &mut label,
    )
}

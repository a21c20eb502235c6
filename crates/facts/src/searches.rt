// P6 to P8: searches of T, each with the word that it writes and its edge count; then without mentions.
use crate::out;
use crate::t::Collection;
use graph::table::Table;
use std::io;

fn search(
    rt: &impl Print,
    name: &str,
    table: &Table,
    start: u64,
    permitted: u64,
    backward: bool,
) -> io::Result<()> {
    let mut reached = [0u64; 1];
    let mut numbers = [0u32; 102];
    let mut words = [0u64; 6];
    match reach::search(
        table,
        &[start],
        &[permitted],
        backward,
        &mut reached,
        &mut numbers,
        &mut words,
    ) {
        Ok(found) => out::pair(rt, name, reached[0], found.edges as u64),
        Err(r) => out::refused(rt, name, r),
    }
}

pub fn run(rt: &impl Print) -> io::Result<()> {
    let t = Collection::whole();
    let table = t.table();
    search(
        rt,
        "P6 forward from {3}, word and count",
        &table,
        8,
        63,
        false,
    )?;
    search(
        rt,
        "P7 backward from {3}, word and count",
        &table,
        8,
        63,
        true,
    )?;
    search(
        rt,
        "P8 forward from {0} within {0, 1, 2}, word and count",
        &table,
        1,
        7,
        false,
    )
}

pub fn without_mentions(rt: &impl Print) -> io::Result<()> {
    let t = Collection::without_mentions();
    let table = t.table();
    search(
        rt,
        "forward from {0} without mentions, word and count",
        &table,
        1,
        63,
        false,
    )?;
    search(
        rt,
        "backward from {0} without mentions, word and count",
        &table,
        1,
        63,
        true,
    )
}

// P9 and P10: paths of T, each with its length and the room after it; then one without mentions.
use crate::out;
use crate::t::Collection;
use graph::table::Table;
use std::io;

fn path(
    rt: &impl Print,
    name: &str,
    table: &Table,
    u: usize,
    v: usize,
    room: &mut [u32],
) -> io::Result<()> {
    let mut numbers = [0u32; 102];
    let mut words = [0u64; 6];
    match paths::path(table, u, v, room, &mut numbers, &mut words) {
        Ok(length) => {
            out::value(rt, name, length as u64)?;
            out::row(rt, "P9 the room after it", room)
        }
        Err(r) => out::refused(rt, name, r),
    }
}

pub fn run(rt: &impl Print) -> io::Result<()> {
    let t = Collection::whole();
    let table = t.table();
    path(rt, "P9 path from 0 to 4, length", &table, 0, 4, &mut [9; 6])?;
    path(
        rt,
        "P9 path from 0 to 4 with room 3",
        &table,
        0,
        4,
        &mut [9; 3],
    )?;
    path(rt, "P10 path from 4 to 0", &table, 4, 0, &mut [9; 6])
}

pub fn without_mentions(rt: &impl Print) -> io::Result<()> {
    let t = Collection::without_mentions();
    path(
        rt,
        "path from 2 to 0 without mentions",
        &t.table(),
        2,
        0,
        &mut [9; 6],
    )
}

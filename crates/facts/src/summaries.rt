// The summary of T's labels, of no labels, of a wrong column, and of the longest one.
use crate::{out, t};
use std::io;

fn sum_up(rt: &impl Print, name: &str, n: usize, label: &[u32]) -> io::Result<()> {
    match summary::summary(n, label) {
        Ok(totals) => out::row(rt, name, &[totals.own, totals.rings, totals.largest]),
        Err(r) => out::refused(rt, name, r),
    }
}

pub fn run(rt: &impl Print) -> io::Result<()> {
    let label = t::labels();
    let zeros = [0u32; 65536];
    sum_up(rt, "summary of T", 6, &label)?;
    sum_up(rt, "summary of n = 0", 0, &label[..0])?;
    sum_up(rt, "summary of 1 0", 2, &[1, 0])?;
    sum_up(rt, "summary of 65,536 zeros", 65536, &zeros)?;
    sum_up(rt, "summary of T with n = 5", 5, &label)?;
    sum_up(rt, "summary of 0 2", 2, &[0, 2])
}

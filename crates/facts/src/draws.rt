// P11: the generator from 0.
use crate::out;
use pivot::chooser;
use std::io;

pub fn run(rt: &impl Print) -> io::Result<()> {
    let first = chooser::next(0);
    let second = chooser::next(first);
    out::row(rt, "P11 generator from 0", &[first, second])
}

// Reads each text that its arguments name and writes what the reader makes of it: the table, or the refusal number.
#![tactic(auto)]

use std::fs::File;
use std::rt::Files;
use std::{env, io};
use text::Size;

// What every place of a table slice is at the start.
const UNTOUCHED: u32 = 7;

// Are all places from `from` on still what they were at the start?
fn unchanged(xs: &[u32], from: usize) -> bool {
    (from..xs.len()).all(|i| xs[i] == UNTOUCHED)
}

fn say(rt: &impl Print, ok: bool) -> io::Result<()> {
    if ok {
        println!(rt; "rest unchanged")
    } else {
        println!(rt; "rest changed")
    }
}

fn table(rt: &impl Print, size: Size, sources: &[u32], targets: &[u32]) -> io::Result<()> {
    println!(rt; "table {} {}", size.n, size.edges)?;
    for (source, target) in sources.iter().zip(targets).take(size.edges) {
        println!(rt; "{source} {target}")?;
    }
    say(rt, unchanged(sources, size.edges))?;
    say(rt, unchanged(targets, size.edges))
}

fn judge(rt: &impl Print, text: &[u8]) -> io::Result<()> {
    let mut sources = [UNTOUCHED; 8];
    let mut targets = [UNTOUCHED; 9];
    match text::read(text, &mut sources, &mut targets) {
        Ok(size) => table(rt, size, &sources, &targets),
        Err(refusal) => {
            println!(rt; "refused {refusal}")?;
            say(rt, unchanged(&sources, 0))?;
            say(rt, unchanged(&targets, 0))
        }
    }
}

// Of a longer text the front is read.
fn one<R: Files + Print>(rt: &R, path: &str) -> io::Result<()> {
    println!(rt; "== {path}")?;
    let Ok(mut file) = File::open(rt, path) else {
        return println!(rt; "no such file");
    };
    let mut text = [0u8; 65536];
    let n = input::read_full(&mut file, &mut text)?;
    judge(rt, &text[..n])
}

fn main(rt: HostRuntime) -> io::Result<()> {
    for path in env::args(&rt)?.skip(1) {
        one(&rt, path.as_str())?;
    }
    Ok(())
}

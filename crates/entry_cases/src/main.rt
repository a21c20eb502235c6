// Calls the entry on each text that its arguments name and writes the label file, or the number of the refusal.
#![tactic(auto)]

use std::fs::File;
use std::io::Write;
use std::rt::Files;
use std::{env, io};

fn label(rt: &impl Print, text: &[u8]) -> io::Result<()> {
    let mut out = [0u8; 4096];
    match entry::label_text(text, &mut out) {
        Ok(bytes) => io::writer(rt).write_all(&out[..input::fitting(bytes, &out)]),
        Err(refusal) => println!(rt; "refused {refusal}"),
    }
}

// Of a longer text the front is read.
fn one<R: Files + Print>(rt: &R, path: &str) -> io::Result<()> {
    println!(rt; "== {path}")?;
    let Ok(mut file) = File::open(rt, path) else {
        return println!(rt; "no such file");
    };
    let mut text = [0u8; 65536];
    let n = input::read_full(&mut file, &mut text)?;
    label(rt, &text[..n])
}

fn main(rt: HostRuntime) -> io::Result<()> {
    for path in env::args(&rt)?.skip(1) {
        one(&rt, path.as_str())?;
    }
    Ok(())
}

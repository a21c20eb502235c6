// Reads a text from standard input and writes its label file, or `refused N`.
#![tactic(auto)]

use graph::refusal::Refusal;
use std::io;
use std::io::Write;

const MOST_BYTES: usize = 65536;

fn refused(rt: &impl Print, refusal: Refusal) -> io::Result<()> {
    println!(rt; "refused {refusal}")
}

fn label(rt: &impl Print, text: &[u8]) -> io::Result<()> {
    let mut out = [0u8; 4096];
    match entry::label_text(text, &mut out) {
        Ok(bytes) => io::writer(rt).write_all(&out[..input::fitting(bytes, &out)]),
        Err(refusal) => refused(rt, refusal),
    }
}

fn main(rt: HostRuntime) -> io::Result<()> {
    let mut text = [0u8; MOST_BYTES + 1];
    let n = input::read_full(&mut rt.reader(), &mut text)?;
    if MOST_BYTES < n {
        return refused(&rt, Refusal::InputTooLong);
    }
    label(&rt, &text[..n])
}

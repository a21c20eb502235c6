// Lines on standard output: a name, and the numbers it has.
use graph::refusal::Refusal;
use std::io;

fn begin(rt: &impl Print, name: &str) -> io::Result<()> {
    print!(rt; "{name}:")
}

fn item(rt: &impl Print, value: u64) -> io::Result<()> {
    print!(rt; " {value}")
}

fn end(rt: &impl Print) -> io::Result<()> {
    println!(rt;)
}

pub fn value(rt: &impl Print, name: &str, value: u64) -> io::Result<()> {
    begin(rt, name)?;
    item(rt, value)?;
    end(rt)
}

pub fn row(rt: &impl Print, name: &str, values: &[u32]) -> io::Result<()> {
    begin(rt, name)?;
    for x in values {
        item(rt, u64::from(*x))?;
    }
    end(rt)
}

pub fn refused(rt: &impl Print, name: &str, r: Refusal) -> io::Result<()> {
    print!(rt; "{name}: refused")?;
    print!(rt; " {r}")?;
    end(rt)
}

pub fn pair(rt: &impl Print, name: &str, a: u64, b: u64) -> io::Result<()> {
    begin(rt, name)?;
    item(rt, a)?;
    item(rt, b)?;
    end(rt)
}

pub fn said(rt: &impl Print, name: &str, words: &str) -> io::Result<()> {
    println!(rt; "{name}: {words}")
}

// The program's vertex limit, at its two sides.
use crate::out;
use std::io;

fn label_text(rt: &impl Print, name: &str, text: &[u8]) -> io::Result<()> {
    let mut file = [0u8; 4096];
    match entry::label_text(text, &mut file) {
        Ok(bytes) => out::value(rt, name, bytes as u64),
        Err(r) => out::refused(rt, name, r),
    }
}

pub fn run(rt: &impl Print) -> io::Result<()> {
    label_text(
        rt,
        "the entry on 512 vertices, bytes written",
        b"%%MatrixMarket matrix coordinate pattern general\n512 512 0\n",
    )?;
    label_text(
        rt,
        "the entry on 513 vertices",
        b"%%MatrixMarket matrix coordinate pattern general\n513 513 0\n",
    )
}

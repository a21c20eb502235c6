// What the programs share: an input that is read to its end, and the front of a buffer that is written.
#![tactic(auto)]

ghost use Rattle.std.specs.Prelude.{◌≡◌, ◌≤◌, cond, ltb, length, IfOk};

use std::io;
use std::io::Read;

// The count of bytes at the front of the buffer; 0 if it has fewer, and no Option: the front that is written is then empty.
pub fn fitting(bytes: usize, buf: &[u8]) -> usize
    ensures within { result ≤ length buf.now }
    ensures all { bytes ≤ length buf.now → result ≡ bytes }
    ensures is { result ≡ cond (ltb (length buf.now) bytes) 0 bytes }
{
    if buf.len() < bytes {
        return 0;
    }
    bytes
}

// Fills the front of the buffer from a reader, and the whole if there is enough. The count of bytes read.
pub fn read_full<R: Read>(reader: &mut R, buf: &mut [u8]) -> io::Result<usize>
    ensures { IfOk result (λ n. n ≤ length buf.new) }
{
    let mut at = 0;
    while at < buf.len() {
        let n = reader.read(&mut buf[at..])?;
        if n == 0 {
            return Ok(at);
        }
        at += n;
    }
    Ok(at)
}

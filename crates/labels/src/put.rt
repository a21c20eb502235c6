// Bytes and numbers put into a lent buffer, one after the other. The buffer and the place stay two parameters: a struct that holds a `&mut` is no plainer.
ghost use Rattle.std.specs.Prelude.{◌+◌, ◌≤◌};
ghost use Rattle.labels.specs.File.{decimal, line, label_lines};
ghost use Rattle.labels.specs.Steps.{most_number, Measured, Written, Fits};

use lines::pieces;

// How many digits a number has, and the power of ten with one zero for each.
#[derive(Clone, Copy, Debug, PartialEq, Eq)]
pub struct Width {
    pub digits: usize,
    pub power: u64,
}

// The loop goes along the powers of ten.
pub fn width_of(x: u64) -> Width
    requires { x ≤ most_number }
    ensures { Measured x result.digits result.power }
{
    let mut digits: usize = 1;
    let mut power: u64 = 10;
    while power <= x {
        power *= 10;
        digits += 1;
    }
    Width { digits, power }
}

pub fn put_bytes(bytes: &[u8], out: &mut [u8], at: usize) -> usize
    requires { Fits bytes.now out.old at }
    ensures { Written bytes.now out.old at result out.new }
{
    let end = at + bytes.len();
    out[at..end].copy_from_slice(bytes);
    end
}

// A number in decimal, the highest digit first.
pub fn put_number(x: u64, out: &mut [u8], at: usize) -> usize
    requires { (x ≤ most_number) × Fits (decimal x) out.old at }
    ensures { Written (decimal x) out.old at result out.new }
{
    let width = width_of(x);
    let mut power = width.power;
    let end = at + width.digits;
    for place in &mut out[at..end] {
        power /= 10;
        *place = (x / power % 10) as u8 + b'0';
    }
    end
}

// A label plus one, on a line of its own.
pub fn put_label(label: u32, out: &mut [u8], at: usize) -> usize
    requires { Fits (line (decimal (label + 1))) out.old at }
    ensures { Written (line (decimal (label + 1))) out.old at result out.new }
{
    let end = put_number(u64::from(label) + 1, out, at);
    out[end] = pieces::LF;
    end + 1
}

pub fn put_labels(label: &[u32], out: &mut [u8], at: usize) -> usize
    requires { Fits (label_lines label.now) out.old at }
    ensures { Written (label_lines label.now) out.old at result out.new }
{
    let mut i = at;
    for l in label {
        i = put_label(*l, out, i);
    }
    i
}

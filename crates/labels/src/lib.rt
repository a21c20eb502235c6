// The label file, written from a label column.
#![tactic(auto)]

ghost use Rattle.std.specs.Prelude.{◌≡◌, ◌≤◌, ◌*◌, length};
ghost use Rattle.graph.specs.Limits.{most_vertices};
ghost use Rattle.labels.specs.File.{label_lines, label_file};
ghost use Rattle.labels.specs.Steps.{Fits, Written};
ghost use Rattle.labels.specs.Promise.{Promise};

pub mod put;

use graph::limits;
use graph::refusal::Refusal;

const BANNER: &[u8] = b"%%MatrixMarket matrix array integer general\n";

// What stands on the size line past the number of vertices.
const ONE_COLUMN: &[u8] = b" 1\n";

// The bytes of the label lines.
pub fn lines_length(label: &[u32]) -> usize
    requires { length label.now ≤ most_vertices }
    ensures { (result ≡ length (label_lines label.now)) × (result ≤ 11 * most_vertices) }
{
    let mut total = 0;
    for l in label {
        let width = put::width_of(u64::from(*l) + 1);
        total += width.digits + 1;
    }
    total
}

pub fn file_length(label: &[u32]) -> usize
    requires { length label.now ≤ most_vertices }
    ensures { result ≡ length (label_file label.now) }
{
    let width = put::width_of(label.len() as u64);
    BANNER.len() + width.digits + ONE_COLUMN.len() + lines_length(label)
}

pub fn put_file(label: &[u32], out: &mut [u8]) -> usize
    requires { (length label.now ≤ most_vertices) × Fits (label_file label.now) out.old 0 }
    ensures { Written (label_file label.now) out.old 0 result out.new }
{
    let at = put::put_bytes(BANNER, out, 0);
    let at = put::put_number(label.len() as u64, out, at);
    let at = put::put_bytes(ONE_COLUMN, out, at);
    put::put_labels(label, out, at)
}

// The bytes written.
pub fn write(label: &[u32], out: &mut [u8]) -> Result<usize, Refusal>
    ensures { Promise label.now out.old result out.new }
{
    if limits::MOST_VERTICES < label.len() {
        return Err(Refusal::TooManyVertices);
    }
    let bytes = file_length(label);
    if out.len() < bytes {
        return Err(Refusal::RoomShort);
    }
    put_file(label, out);
    Ok(bytes)
}

// The entry: the label file of a text. entry_c has it for C.
#![tactic(auto)]

ghost use Rattle.std.specs.Prelude.{◌≡◌};
ghost use Rattle.graph.specs.Graph.{graph};
ghost use Rattle.graph.specs.Search.{labels};
ghost use Rattle.entry.specs.LabelText.{Answered, Promise};
ghost use Rattle.entry.specs.Steps.{LabelAsk};
ghost use Rattle.labels.specs.Promise.{Promise as Wrote};

mod components;

use graph::refusal::Refusal;

pub const MOST_VERTICES: usize = 512;

pub const MOST_EDGES: usize = 4096;

fn write_labels(
    n: usize,
    sources: &[u32],
    targets: &[u32],
    out: &mut [u8],
) -> Result<usize, Refusal>
    requires { LabelAsk n sources.now targets.now (labels (graph n sources.now targets.now)) }
    ensures { Wrote (labels (graph n sources.now targets.now)) out.old result out.new }
{
    let mut label = [0u32; MOST_VERTICES];
    components::labelled(n, sources, targets, &mut label[..n]);
    labels::write(&label[..n], out)
}

pub fn label_text(text: &[u8], out: &mut [u8]) -> Result<usize, Refusal>
    ensures { Answered text.now out.old result out.new }
{
    let mut sources = [0u32; MOST_EDGES];
    let mut targets = [0u32; MOST_EDGES];
    let size = text::read_within(text, MOST_VERTICES, MOST_EDGES, &mut sources, &mut targets)?;
    write_labels(size.n, &sources[..size.edges], &targets[..size.edges], out)
}

// What entry_c exports under the same name.
pub fn tinoweala_label_text(text: &[u8], out: &mut [u8]) -> i64
    ensures { Promise text.now out.old result out.new }
{
    match label_text(text, out) {
        Ok(bytes) => bytes as i64,
        Err(refusal) => -i64::from(u32::from(refusal)),
    }
}

// On texts: the reader of a table and the writer of a label file.
ghost use Rattle.graph.specs.Limits.{most_vertices, most_edges};
ghost use Rattle.surface.specs.Read.{Read};
ghost use Rattle.surface.specs.Labels.{Written};

pub fn tinoweala_read_text(
    text: &[u8],
    sources: &mut [u32],
    targets: &mut [u32],
    n: &mut usize,
    edges: &mut usize,
) -> u32
    ensures { Read (record { text = text.now; most_vertices = most_vertices; most_edges = most_edges; sources = sources.old; targets = targets.old }) n.old edges.old sources.new targets.new (result, n.new, edges.new) }
{
    match text::read(text, sources, targets) {
        Err(r) => u32::from(r),
        Ok(size) => {
            *n = size.n;
            *edges = size.edges;
            0
        }
    }
}

pub fn tinoweala_write_labels(label: &[u32], out: &mut [u8], bytes: &mut usize) -> u32
    ensures { Written label.now out.old bytes.old out.new (result, bytes.new) }
{
    match labels::write(label, out) {
        Err(r) => u32::from(r),
        Ok(count) => {
            *bytes = count;
            0
        }
    }
}

// On label columns and certificates: the writer, the checker and the summary.
ghost use Rattle.certificate.specs.Promise.{call as writing, lent, Promise as Certified};
ghost use Rattle.checker.specs.Promise.{call as checking};
ghost use Rattle.surface.specs.Check.{Checked};
ghost use Rattle.surface.specs.Summary.{Summed};

use checker::{Columns, Verdict};
use graph::table::Table;

pub fn tinoweala_write_certificate(
    n: usize,
    sources: &[u32],
    targets: &[u32],
    kinds: &[u8],
    mask: u8,
    label: &[u32],
    rank: &mut [u32],
    in_edge: &mut [u32],
    in_distance: &mut [u32],
    out_edge: &mut [u32],
    out_distance: &mut [u32],
    numbers: &mut [u32],
    words: &mut [u64],
) -> u32
    ensures { Certified (writing n sources.now targets.now kinds.now mask label.now (lent rank.old in_edge.old in_distance.old out_edge.old out_distance.old numbers.old words.old)) result (lent rank.new in_edge.new in_distance.new out_edge.new out_distance.new numbers.new words.new) }
{
    let table = Table {
        n,
        sources,
        targets,
        kinds,
        mask,
    };
    match certificate::write(
        &table,
        label,
        rank,
        in_edge,
        in_distance,
        out_edge,
        out_distance,
        numbers,
        words,
    ) {
        Err(r) => u32::from(r),
        Ok(()) => 0,
    }
}

pub fn tinoweala_check_certificate(
    n: usize,
    sources: &[u32],
    targets: &[u32],
    kinds: &[u8],
    mask: u8,
    label: &[u32],
    rank: &[u32],
    in_edge: &[u32],
    in_distance: &[u32],
    out_edge: &[u32],
    out_distance: &[u32],
    check: &mut u32,
    place: &mut usize,
) -> u32
    ensures { Checked (checking n sources.now targets.now kinds.now mask label.now rank.now in_edge.now in_distance.now out_edge.now out_distance.now) check.old place.old (result, check.new, place.new) }
{
    let table = Table {
        n,
        sources,
        targets,
        kinds,
        mask,
    };
    let columns = Columns {
        label,
        rank,
        in_edge,
        in_distance,
        out_edge,
        out_distance,
    };
    match checker::check(&table, &columns) {
        Err(r) => u32::from(r),
        Ok(Verdict::Failed { check: c, place: p }) => {
            *check = c;
            *place = p;
            0
        }
        Ok(Verdict::Accepted) => {
            *check = 0;
            *place = 0;
            0
        }
    }
}

pub fn tinoweala_summary(
    n: usize,
    label: &[u32],
    own: &mut u32,
    rings: &mut u32,
    largest: &mut u32,
) -> u32
    ensures { Summed (record { n = n; label = label.now }) own.old rings.old largest.old (result, own.new, rings.new, largest.new) }
{
    match summary::summary(n, label) {
        Err(r) => u32::from(r),
        Ok(totals) => {
            *own = totals.own;
            *rings = totals.rings;
            *largest = totals.largest;
            0
        }
    }
}

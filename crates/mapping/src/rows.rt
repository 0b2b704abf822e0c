// The lent rows, four numbers a span.
ghost use Rattle.std.specs.Prelude.{[], ◌∷◌, ◌++◌, ◌≡◌, length, take, drop, ◌+◌, ◌*◌, ◌<◌, ◌≤◌};
ghost use Rattle.regions.specs.Answers.{what_of, region_of};
ghost use Rattle.mapping.specs.Rows.{value_of, what_kind, span_row};
ghost use Rattle.mapping.specs.Spans.{span_of};
ghost use Rattle.mapping.specs.Told.{room as room_in};

use regions::{Region, What, rights_number, table_span};

// A listing has no more spans.
pub const SPANS: usize = 4096;

pub(crate) fn room(numbers: usize) -> usize
    ensures { result ≡ room_in numbers }
{
    (numbers / 4).min(SPANS)
}

fn value(what: Option<What>) -> u64
    ensures { result ≡ value_of (what_of what) }
{
    match what {
        Some(What::Page(frame)) => frame,
        Some(What::Fault(reason)) => reason.number() as u64,
        Some(What::Refused(refusal)) => refusal.number() as u64,
        None => 0,
    }
}

fn kind(what: Option<What>) -> u64
    ensures { (result ≡ what_kind (what_of what)) × (result < 4) }
{
    match what {
        Some(What::Page(_)) => 0,
        Some(What::Fault(_)) => 1,
        Some(What::Refused(_)) => 2,
        None => 3,
    }
}

// The row of a number.
fn put_row(rows: &mut [u64], count: usize, start: u64, size: u64, value: u64, last: u64)
    requires { 4 * count + 4 ≤ length rows.old }
    ensures { rows.new ≡ take (4 * count) rows.old ++ ((start ∷ size ∷ value ∷ last ∷ []) ++ drop (4 * count + 4) rows.old) }
{
    let at = 4 * count;
    rows[at..at + 4].copy_from_slice(&[start, size, value, last]);
}

pub(crate) fn put_span(rows: &mut [u64], count: usize, end: u64, start: u64, region: Region)
    requires { (4 * count + 4 ≤ length rows.old) × (start < end) × (0 < region.level) × (region.level ≤ 6) }
    ensures { rows.new ≡ take (4 * count) rows.old ++ (span_row (span_of end start (region_of region)) ++ drop (4 * count + 4) rows.old) }
{
    let size = table_span(region.level - 1).min(end - start);
    let what = region.what;
    let rights = region.rights;
    put_row(
        rows,
        count,
        start,
        size,
        value(what),
        4 * kind(what) + rights_number(rights),
    );
}

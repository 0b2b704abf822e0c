// Entries of guest memory through its windows. Every fetch asks for windows that aren't refused, and one test tells whether an entry can be
// fetched: windows begin at multiples of 4096, so that one with an entry's last byte has all of it.
ghost use Rattle.std.specs.Prelude.{◌≡◌, ◌+◌, ◌-◌, ◌%◌, ◌^◌, ◌<◌, ◌≤◌, true, false, length, take, drop};
ghost use Rattle.image.specs.Bytes.{little_endian};
ghost use Rattle.image.specs.Answers.{number16, number64, fetched8, fetched16, fetched64, missed8, missed16, missed64, HeldBy, PlacedBy};
ghost use Rattle.image.specs.Memory.{entry};
ghost use Rattle.image.specs.Spans.{window_by, Opened};
ghost use Rattle.image.specs.Windows.{windows_of, window_at, end_of, holds_all, on_spot, spot_in, of_windows, page_from, bad_window, bad_windows};

use crate::buffer::word;
use crate::{Entry16, Entry64, Missing, Span};

fn span_at(windows: &[u64], i: usize) -> Span
    requires { i + 3 ≤ length windows.now }
    ensures { window_by result ≡ window_at windows.now i }
{
    let start = windows[i];
    let size = windows[i + 2];
    let shift = windows[i + 1].wrapping_sub(start);
    Span { start, size, shift }
}

// The first window; an empty one where there is none. A request hands it to its fetches: it is the only one of most guests, and read once.
pub fn first_span(windows: &[u64]) -> Span
    requires { length windows.now % 3 ≡ 0 }
    ensures { window_by result ≡ window_at windows.now 0 }
{
    if windows.len() < 3 {
        return Span {
            start: 0,
            size: 0,
            shift: 0,
        };
    }
    span_at(windows, 0)
}

// One test: the difference wraps past every window's size where the window begins behind the address.
fn contains(span: Span, at: u64) -> bool
    requires { end_of (window_by span) ≤ 2 ^ 64 }
    ensures { result ≡ holds_all (window_by span) 1 at }
{
    at.wrapping_sub(span.start) < span.size
}

// Unrolled: a loop over the windows is slower than their tests.
fn later_window(windows: &[u64], run: usize, at: u64) -> Option<Span>
    requires { bad_windows windows.now run ≡ false }
    ensures { HeldBy result (windows_of (drop 3 windows.now)) run at }
{
    let count = windows.len();
    if count < 6 {
        return None;
    }
    let second = span_at(windows, 3);
    if contains(second, at) {
        return Some(second);
    }
    if count < 9 {
        return None;
    }
    let third = span_at(windows, 6);
    if contains(third, at) {
        return Some(third);
    }
    if count < 12 {
        return None;
    }
    let fourth = span_at(windows, 9);
    if contains(fourth, at) {
        return Some(fourth);
    }
    None
}

pub(crate) fn window_of(first: Span, windows: &[u64], run: usize, at: u64) -> Option<Span>
    requires { Opened first windows.now run }
    ensures { HeldBy result (windows_of windows.now) run at }
{
    if contains(first, at) {
        return Some(first);
    }
    later_window(windows, run, at)
}

// The window with a byte, for those who have none of the windows at hand.
pub fn find_window(windows: &[u64], run: usize, at: u64) -> Option<Span>
    requires { bad_windows windows.now run ≡ false }
    ensures { HeldBy result (windows_of windows.now) run at }
{
    window_of(first_span(windows), windows, run, at)
}

// The place in the run of a byte that the window holds.
pub fn place_in(span: Span, at: u64) -> usize
    requires { (holds_all (window_by span) 1 at ≡ true) × ((window_by span).place + (window_by span).size < 2 ^ 64) }
    ensures { result ≡ (window_by span).place + (at - (window_by span).start) }
{
    at.wrapping_add(span.shift) as usize
}

// The 4 KiB page of a table, as a part of the run: as much of it as the window in which it begins holds.
pub fn table_page<'a>(span: Span, image: &'a [u8], table: u64) -> &'a [u8]
    requires { (bad_window (window_by span) (length image.now) ≡ false) × (holds_all (window_by span) 1 table ≡ true) }
    ensures { result.now ≡ page_from (window_by span) image.now table }
{
    let from = place_in(span, table);
    let left = (span.size - (table - span.start)) as usize;
    if 4096 <= left {
        return &image[from..from + 4096];
    }
    &image[from..from + left]
}

// Where in the run the bytes from one up to so many after it stand, where a window has them all.
pub(crate) fn place_of(
    first: Span,
    windows: &[u64],
    run: usize,
    at: u64,
    more: u64,
) -> Option<usize>
    requires { Opened first windows.now run × (at % 4096 + more < 4096) × (at + more < 2 ^ 64) }
    ensures { PlacedBy result (windows_of windows.now) run (more + 1) at }
{
    let span = window_of(first, windows, run, at + more)?;
    Some(place_in(span, at))
}

// Where in the run an entry of 64 bytes stands, for a store: 0 where it doesn't lie whole in a window.
pub fn place64(windows: &[u64], run: usize, at: u64) -> usize
    requires { (bad_windows windows.now run ≡ false) × (at % 64 ≡ 0) }
    ensures { result ≡ on_spot (spot_in (windows_of windows.now) 64 at) 0 (λ place left. place) }
{
    place_of(first_span(windows), windows, run, at, 63).unwrap_or(0)
}

// Guest memory with holes (document 02, ask 9): none to four windows on the one lent run. Three numbers a window: the host address of
// its first byte, the place of that byte in the run, and its length.
ghost use Rattle.std.specs.Prelude.{◌≡◌, ◌+◌, ◌%◌, ◌^◌, ◌<◌, ◌≤◌, false, length, drop};
ghost use Rattle.image.specs.Windows.{windows_of, window_at, bad_window, bad_numbers, bad_windows};
ghost use Rattle.image.specs.WindowRow.{bad_part, bad_next, bad_row, share, sharing, rises, rising};

// A window alone, but for its end in host addresses. An end in the run that isn't above the place is one of an empty part, or of one past 2^64.
fn bad_part(windows: &[u64], i: usize, run: usize) -> bool
    requires { i + 3 ≤ length windows.now }
    ensures { result ≡ bad_part (window_at windows.now i) run }
{
    if windows[i] % 4096 != 0 {
        return true;
    }
    let place = windows[i + 1];
    let end = place.wrapping_add(windows[i + 2]);
    if end <= place {
        return true;
    }
    (run as u64) < end
}

// A window that isn't the last: it ends before the next one begins.
fn bad_next(windows: &[u64], i: usize, run: usize) -> bool
    requires { i + 6 ≤ length windows.now }
    ensures { result ≡ bad_next (window_at windows.now i) (window_at windows.now (i + 3)) run }
{
    if bad_part(windows, i, run) {
        return true;
    }
    let start = windows[i];
    let end = start.wrapping_add(windows[i + 2]);
    if end <= start {
        return true;
    }
    windows[i + 3] < end
}

// The last window: it may end at 2^64.
fn bad_last(windows: &[u64], i: usize, run: usize) -> bool
    requires { i + 3 ≤ length windows.now }
    ensures { result ≡ bad_window (window_at windows.now i) run }
{
    if bad_part(windows, i, run) {
        return true;
    }
    0xFFFF_FFFF_FFFF_FFFF - windows[i] < windows[i + 2] - 1
}

// A window's part of the run ends before another's begins. This one is for windows whose parts are known to end.
fn ends_before(windows: &[u64], i: usize, j: usize) -> bool
    requires { (i + 3 ≤ length windows.now) × (j + 3 ≤ length windows.now) × ((window_at windows.now i).place + (window_at windows.now i).size < 2 ^ 64) }
    ensures { result ≡ rises (window_at windows.now i) (window_at windows.now j) }
{
    windows[i + 1].wrapping_add(windows[i + 2]) <= windows[j + 1]
}

fn rises_to(windows: &[u64], i: usize, j: usize) -> bool
    requires { (i + 3 ≤ length windows.now) × (j + 3 ≤ length windows.now) }
    ensures { result ≡ rises (window_at windows.now i) (window_at windows.now j) }
{
    let from = windows[i + 1];
    let to = windows[j + 1];
    if to < from {
        return false;
    }
    windows[i + 2] <= to - from
}

fn shares(windows: &[u64], i: usize, j: usize) -> bool
    requires { (i + 3 ≤ length windows.now) × (j + 3 ≤ length windows.now) }
    ensures { result ≡ share (window_at windows.now i) (window_at windows.now j) }
{
    if rises_to(windows, i, j) {
        return false;
    }
    !rises_to(windows, j, i)
}

// A row of windows that each end before the next one begins.
// Unrolled, as the tests below: in for loops over the windows they took 1.4 to 2.1 times the instructions, in each request over several windows.
fn bad_row(windows: &[u64], run: usize) -> bool
    requires { (3 ≤ length windows.now) × (length windows.now ≤ 12) × (length windows.now % 3 ≡ 0) }
    ensures { result ≡ bad_row (windows_of windows.now) run }
{
    let count = windows.len();
    if count < 6 {
        return bad_last(windows, 0, run);
    }
    if bad_next(windows, 0, run) {
        return true;
    }
    if count < 9 {
        return bad_last(windows, 3, run);
    }
    if bad_next(windows, 3, run) {
        return true;
    }
    if count < 12 {
        return bad_last(windows, 6, run);
    }
    if bad_next(windows, 6, run) {
        return true;
    }
    bad_last(windows, 9, run)
}

// Windows in the order of their parts of the run, as they mostly are: none of them shares a byte with another.
fn all_rise(windows: &[u64], run: usize) -> bool
    requires { (3 ≤ length windows.now) × (length windows.now ≤ 12) × (length windows.now % 3 ≡ 0)
        × (bad_row (windows_of windows.now) run ≡ false) }
    ensures { result ≡ rising (windows_of windows.now) }
{
    let count = windows.len();
    if count < 6 {
        return true;
    }
    if !ends_before(windows, 0, 3) {
        return false;
    }
    if count < 9 {
        return true;
    }
    if !ends_before(windows, 3, 6) {
        return false;
    }
    if count < 12 {
        return true;
    }
    ends_before(windows, 6, 9)
}

// Of the last three windows, whose numbers stand from an index on.
fn three_share(windows: &[u64], i: usize) -> bool
    requires { i + 9 ≡ length windows.now }
    ensures { result ≡ sharing (windows_of (drop i windows.now)) }
{
    if shares(windows, i, i + 3) {
        return true;
    }
    if shares(windows, i, i + 6) {
        return true;
    }
    shares(windows, i + 3, i + 6)
}

fn four_share(windows: &[u64]) -> bool
    requires { length windows.now ≡ 12 }
    ensures { result ≡ sharing (windows_of windows.now) }
{
    if shares(windows, 0, 3) {
        return true;
    }
    if shares(windows, 0, 6) {
        return true;
    }
    if shares(windows, 0, 9) {
        return true;
    }
    three_share(windows, 3)
}

fn any_share(windows: &[u64]) -> bool
    requires { (3 ≤ length windows.now) × (length windows.now ≤ 12) × (length windows.now % 3 ≡ 0) }
    ensures { result ≡ sharing (windows_of windows.now) }
{
    let count = windows.len();
    if count < 6 {
        return false;
    }
    if count < 9 {
        return shares(windows, 0, 3);
    }
    if count < 12 {
        return three_share(windows, 0);
    }
    four_share(windows)
}

// More than four windows, or a count of numbers that isn't three a window.
fn bad_count(count: usize) -> bool
    ensures { result ≡ bad_numbers count }
{
    !matches!(count, 0 | 3 | 6 | 9 | 12)
}

// Refusal 1's part on windows: these are refused on a run of so many bytes.
#[inline(never)]
pub fn bad_several(windows: &[u64], run: usize) -> bool
    ensures { result ≡ bad_windows windows.now run }
{
    let count = windows.len();
    if bad_count(count) {
        return true;
    }
    if count == 0 {
        return false;
    }
    if bad_row(windows, run) {
        return true;
    }
    if all_rise(windows, run) {
        return false;
    }
    any_share(windows)
}

// The same, a single window told by its tests alone. The compiler puts a small function into its callers: so requests have one window's
// tests, the usual case, without a call, and share the others', which stay a function of their own.
#[inline]
pub fn bad_windows(windows: &[u64], run: usize) -> bool
    ensures { result ≡ bad_windows windows.now run }
{
    if windows.len() == 3 {
        return bad_last(windows, 0, run);
    }
    bad_several(windows, run)
}

// Where in the lent run bytes of a host address stand, and words there.
ghost use Rattle.std.specs.Prelude.{false, ◌≡◌, ◌+◌, ◌%◌, ◌≤◌, length};
ghost use Rattle.image.specs.Windows.{windows_of, window_at, holds_all, spot_in, bad_windows};
ghost use Rattle.image.specs.Answers.{memory_of};
ghost use Rattle.region.specs.Copy.{place_shown, word_shown, stored_at};

use image::{Memory, store8};
use registers::Page4K;

fn holds_all(windows: &[u64], i: usize, size: u64, at: u64) -> bool
    requires { i + 3 ≤ length windows.now }
    ensures { result ≡ holds_all (window_at windows.now i) size at }
{
    let start = windows[i];
    if at < start {
        return false;
    }
    let length = windows[i + 2];
    if length < size {
        return false;
    }
    at - start <= length - size
}

// The place in the run of the first of so many bytes, where a single window has them all.
pub(crate) fn find_place(windows: &[u64], run: usize, size: u64, at: u64) -> Option<u64>
    requires { bad_windows windows.now run ≡ false }
    ensures { result ≡ place_shown (spot_in (windows_of windows.now) size at) }
{
    for n in 0..windows.len() / 3 {
        if holds_all(windows, 3 * n, size, at) {
            return Some(windows[3 * n + 1] + (at - windows[3 * n]));
        }
    }
    None
}

// The word at a host address.
pub(crate) fn word_shown(memory: &Memory, at: u64) -> u64
    requires { at % 8 ≡ 0 }
    ensures { result ≡ word_shown (memory_of memory.now) at }
{
    let offset = at % Page4K::SPAN;
    memory.table_entry::<u64>(at - offset, offset).unwrap_or(0)
}

// Another word at a host address.
pub(crate) fn store_at(windows: &[u64], image: &mut [u8], at: u64, word: u64)
    requires { bad_windows windows.now (length image.old) ≡ false }
    ensures { image.new ≡ stored_at windows.now at word image.old }
{
    if let Some(place) = find_place(windows, image.len(), 8, at) {
        store8(image, place, word);
    }
}

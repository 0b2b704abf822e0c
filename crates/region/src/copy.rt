// The words of a region, to a copy and back.
ghost use Rattle.std.specs.Prelude.{false, ◌≡◌, ◌+◌, ◌/◌, ◌%◌, ◌^◌, ◌<◌, ◌≤◌, ◌++◌, length, take, drop, if◌then◌else◌};
ghost use Rattle.image.specs.Answers.{memory_of};
ghost use Rattle.image.specs.Windows.{of_windows, bad_windows};
ghost use Rattle.region.specs.Copy.{copied_in, copied_out};

use crate::spot::{find_place, store_at, word_shown};
use image::{Memory, store8};
use tables::entry_of;

// Bytes of a run from a place on, into another, 64 at a time: word by word, loads would wait for the stores before them where the two lie a
// little apart within their pages, as with a copy from malloc. By an array, since else the compiler looks for an overlap.
fn copy_bytes(from: &[u8], read: usize, to: &mut [u8], write: usize, size: usize)
    requires { (read + size ≤ length from.now) × (write + size ≤ length to.old) × (size % 64 ≡ 0) }
    ensures { to.new ≡ take write to.old ++ take size (drop read from.now) ++ drop (write + size) to.old }
{
    for n in 0..size / 64 {
        let at = 64 * n;
        let part: [u8; 64] = from[read + at..read + at + 64].try_into().unwrap();
        to[write + at..write + at + 64].copy_from_slice(&part);
    }
}

// Where a single window shows the whole region, as mostly, its words are the bytes there.
fn whole_in(windows: &[u64], image: &[u8], copy: &mut [u8], start: u64) -> bool
    requires { bad_windows windows.now (length image.now) ≡ false }
    ensures { copy.new ≡ if result then copied_in (of_windows windows.now image.now) start (length copy.old / 8) 0 copy.old else copy.old }
{
    let size = copy.len();
    if size % 64 != 0 {
        return false;
    }
    let Some(place) = find_place(windows, image.len(), size as u64, start) else {
        return false;
    };
    copy_bytes(image, place as usize, copy, 0, size);
    true
}

fn words_in(memory: &Memory, copy: &mut [u8], start: u64)
    requires { (start % 8 ≡ 0) × (start + length copy.old < 2 ^ 63) }
    ensures { copy.new ≡ copied_in (memory_of memory.now) start (length copy.old / 8) 0 copy.old }
{
    for word in 0..copy.len() as u64 / 8 {
        store8(copy, 8 * word, word_shown(memory, start + 8 * word));
    }
}

pub fn copy_in(memory: &Memory, copy: &mut [u8], start: u64)
    requires { (start % 8 ≡ 0) × (start + length copy.old < 2 ^ 63) }
    ensures { copy.new ≡ copied_in (memory_of memory.now) start (length copy.old / 8) 0 copy.old }
{
    if !whole_in(memory.windows, memory.image, copy, start) {
        words_in(memory, copy, start);
    }
}

// Word by word, so that guest memory is stored from the lowest word up.
pub fn copy_out(windows: &[u64], image: &mut [u8], copy: &[u8], start: u64)
    requires { (bad_windows windows.now (length image.old) ≡ false) × (start + length copy.now < 2 ^ 63) }
    ensures { image.new ≡ copied_out windows.now copy.now start (length copy.now / 8) 0 image.old }
{
    for word in 0..copy.len() as u64 / 8 {
        store_at(windows, image, start + 8 * word, entry_of(copy, 8 * word));
    }
}

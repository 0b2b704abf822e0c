// The flags that a granted request sets in the entries it used: accessed, extended accessed and dirty bits. They are collected during the
// walks, in a lent buffer whose first numbers are the flags so far, and set at the end.
#![tactic(auto)]

ghost use Rattle.std.specs.Prelude.{◌≡◌, ◌+◌, ◌^◌, ◌<◌, ◌≤◌, false, [], ◌∷◌, ◌++◌, length, take};
ghost use Rattle.image.specs.Spans.{Opened};
ghost use Rattle.image.specs.Answers.{HeldBy};
ghost use Rattle.image.specs.Windows.{windows_of, bad_windows};
ghost use Rattle.flags.specs.Flags.{flag, set_flag, set_flags};

use image::{Span, find_window, first_span, place_in};

// One more: a bit of the entry at a host address. Back comes how many there are then.
pub fn push(flags: &mut [u64], count: usize, entry: u64, bit: u32) -> usize
    requires { (count < length flags.old) × (entry < 2 ^ 60) × (bit < 64) }
    ensures value { result ≡ count + 1 }
    ensures flags_after { take (count + 1) flags.new ≡ take count flags.old ++ (flag entry bit ∷ []) }
{
    flags[count] = 8 * entry + bit as u64;
    count + 1
}

// Most flags lie in the first window, which is read once. The tests of the others stay a function: put in here, a nested read takes 3 % more
// instructions.
fn window_of(first: Span, windows: &[u64], run: usize, at: u64) -> Option<Span>
    requires { Opened first windows.now run }
    ensures { HeldBy result (windows_of windows.now) run at }
{
    if at.wrapping_sub(first.start) < first.size {
        return Some(first);
    }
    find_window(windows, run, at)
}

// In the byte at its host address, where a window shows it.
fn set_flag(first: Span, windows: &[u64], image: &mut [u8], flag: u64)
    requires { Opened first windows.now (length image.old) }
    ensures { image.new ≡ set_flag windows.now flag image.old }
{
    let at = flag / 8;
    if let Some(span) = window_of(first, windows, image.len(), at) {
        let place = place_in(span, at);
        image[place] |= 1u8 << (flag % 8);
    }
}

pub fn set_flags(windows: &[u64], image: &mut [u8], flags: &[u64])
    requires { bad_windows windows.now (length image.old) ≡ false }
    ensures { image.new ≡ set_flags windows.now flags.now image.old }
{
    let first = first_span(windows);
    for flag in flags {
        set_flag(first, windows, image, *flag);
    }
}

// Guest memory as entries of 8, 16, 32 and 64 bytes: fetched through windows on the one lent run, a table's page handed on as a part of
// it, and no page copied. Their fields, and words of plain buffers.
#![tactic(auto)]

ghost use Rattle.std.specs.Prelude.{◌≡◌};
ghost use Rattle.image.specs.Bits.{bits, bit, in_place};

mod buffer;
mod entries;
mod entry;
mod fetches;
mod memory;
mod windows;

pub use buffer::{fetch8, store8, word_or_zero};
pub use entries::{find_window, first_span, place_in, place64, table_page};
pub use entry::Entry;
pub use memory::Memory;
pub use windows::{bad_several, bad_windows};

// An entry of 16 bytes: bits 63:0 and 127:64.
#[derive(Clone, Copy, Debug, PartialEq, Eq)]
pub struct Entry16 {
    pub low: u64,
    pub high: u64,
}

// An entry of 64 bytes: bits 63:0 in w0, 511:448 in w7.
#[derive(Clone, Copy, Debug, PartialEq, Eq)]
pub struct Entry64 {
    pub w0: u64,
    pub w1: u64,
    pub w2: u64,
    pub w3: u64,
    pub w4: u64,
    pub w5: u64,
    pub w6: u64,
    pub w7: u64,
}

// A window as the fetches use it: its host addresses, and what is added to one of them, modulo 2^64, for its place in the run. That is made
// before the address is known, so that a single sum stands between an entry's address and its load.
#[derive(Clone, Copy, Debug, PartialEq, Eq)]
pub struct Span {
    pub start: u64,
    pub size: u64,
    pub shift: u64,
}

// The host address of an entry that can't be fetched.
#[derive(Clone, Copy, Debug, PartialEq, Eq)]
pub struct Missing {
    pub at: u64,
}

// The field of a word from bit high down to bit low; 0 where low is above high.
pub fn field(word: u64, high: u32, low: u32) -> u64
    ensures { result ≡ bits word high low }
{
    if 63 < low || high < low {
        return 0;
    }
    let shifted = word >> low;
    if 63 <= high {
        return shifted;
    }
    shifted % (1u64 << (high - low + 1))
}

// One bit of a word, by its number.
pub fn bit(word: u64, place: u32) -> bool
    ensures { result ≡ bit word place }
{
    field(word, place, place) == 1
}

// The field in its place, every other bit 0.
pub fn in_place(word: u64, high: u32, low: u32) -> u64
    ensures { result ≡ in_place word high low }
{
    if 63 < low {
        return 0;
    }
    field(word, high, low) << low
}

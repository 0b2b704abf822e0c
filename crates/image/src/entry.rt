// Entries as the words that the code holds.
ghost use Rattle.std.specs.Prelude.{◌≡◌, ◌+◌, ◌*◌, ◌≤◌, List, [], ◌∷◌, ℕ, length, take, drop, slice_index};
ghost use Rattle.std.specs.Prelude.{if◌then◌else◌, ◌%◌, false};
ghost use Rattle.image.specs.Bits.{bits, bit, any_set, in_one_word};
ghost use Rattle.image.specs.Bytes.{little_endian};
ghost use Rattle.image.specs.Answers.{words16, words64, number16, number64};
ghost use Rattle.image.specs.Entry.{EntryLaws, Words, alone, laws8, laws16, laws64};

use crate::buffer::word;
use crate::{Entry16, Entry64, field};

// The field of a word whose lowest bit has this number in an entry.
fn field_in(word: u64, high: u32, low: u32) -> u64
    ensures { result ≡ (if in_one_word high low then bits word (high % 64) (low % 64) else 0) }
{
    if high / 64 != low / 64 {
        return 0;
    }
    field(word, high % 64, low % 64)
}

pub trait Entry: Copy {
    ghost WORDS: { ℕ };

    ghost words: { Self → List ℕ };

    // The number that the words spell.
    ghost number: { Self → ℕ };

    // How many words of 8 bytes it has.
    const WORDS: u64;

    // Of an entry that lies whole in a run of bytes.
    fn load(image: &[u8], from: usize) -> Self
        requires { from + 8 * WORDS ≤ length image.now }
        ensures { number result ≡ little_endian (take (8 * WORDS) (drop from image.now)) };

    // A word by its number, from the lowest up; 0 where it has no such word.
    fn word(self, n: u32) -> u64
        ensures value { result ≡ slice_index (words self) n }
        ensures fits { Words (words self) };

    ghost laws: { EntryLaws WORDS words number };

    // The field from bit high down to bit low, by their numbers in the whole entry, as VT-d writes them: 83:82 of an entry of 16 bytes.
    // Each field that the rules read lies in one word; one that doesn't is answered 0, or not set.
    final fn bits(self, high: u32, low: u32) -> u64
        ensures { result ≡ (if in_one_word high low then bits (number self) high low else 0) }
    {
        field_in(self.word(low / 64), high, low)
    }

    final fn bit(self, place: u32) -> bool
        ensures { result ≡ bit (number self) place }
    {
        self.bits(place, place) == 1
    }

    // Some bit of the field is set.
    final fn any_set(self, high: u32, low: u32) -> bool
        ensures { result ≡ (if in_one_word high low then any_set (number self) high low else false) }
    {
        self.bits(high, low) != 0
    }
}

impl Entry for u64 {
    ghost WORDS = { 1 };

    ghost words = { alone };

    ghost number = { λ e. e };

    ghost laws = { laws8 };

    const WORDS: u64 = 1;

    fn load(image: &[u8], from: usize) -> u64 {
        word(image, from)
    }

    #[tactic(auto, unfolding(crate::specs::Entry::Words))]
    fn word(self, n: u32) -> u64 {
        if n == 0 { self } else { 0 }
    }
}

impl Entry for Entry16 {
    ghost WORDS = { 2 };

    ghost words = { words16 };

    ghost number = { number16 };

    ghost laws = { laws16 };

    const WORDS: u64 = 2;

    fn load(image: &[u8], from: usize) -> Entry16 {
        Entry16 {
            low: word(image, from),
            high: word(image, from + 8),
        }
    }

    #[tactic(auto, unfolding(crate::specs::Entry::Words))]
    fn word(self, n: u32) -> u64 {
        match n {
            0 => self.low,
            1 => self.high,
            _ => 0,
        }
    }
}

impl Entry for Entry64 {
    ghost WORDS = { 8 };

    ghost words = { words64 };

    ghost number = { number64 };

    ghost laws = { laws64 };

    const WORDS: u64 = 8;

    fn load(image: &[u8], from: usize) -> Entry64 {
        Entry64 {
            w0: word(image, from),
            w1: word(image, from + 8),
            w2: word(image, from + 16),
            w3: word(image, from + 24),
            w4: word(image, from + 32),
            w5: word(image, from + 40),
            w6: word(image, from + 48),
            w7: word(image, from + 56),
        }
    }

    #[tactic(auto, unfolding(crate::specs::Entry::Words))]
    fn word(self, n: u32) -> u64 {
        match n {
            0 => self.w0,
            1 => self.w1,
            2 => self.w2,
            3 => self.w3,
            4 => self.w4,
            5 => self.w5,
            6 => self.w6,
            7 => self.w7,
            _ => 0,
        }
    }
}

// Entries of guest memory. One test tells whether an entry can be fetched: windows begin at multiples of 4096, so that one with an entry's
// last byte has all of it.
ghost use Rattle.std.specs.Prelude.{◌≡◌, ◌+◌, ◌*◌, ◌%◌, ◌<◌, length};
ghost use Rattle.image.specs.Answers.{OpenedBy, memory_of, fetched, fetched64, missed, HeldBy};
ghost use Rattle.image.specs.Memory.{entry};
ghost use Rattle.image.specs.Windows.{windows_of};

use crate::entries::{first_span, place_of, table_page, window_of};
use crate::entry::Entry;
use crate::memory::Memory;
use crate::{Entry16, Entry64, Missing, Span, bad_windows};

impl<'a> Memory<'a> {
    // None where the windows are refused.
    pub fn open(windows: &'a [u64], image: &'a [u8]) -> Option<Memory<'a>>
        ensures { OpenedBy result windows.now image.now }
    {
        if bad_windows(windows, image.len()) {
            return None;
        }
        let first = first_span(windows);
        Some(Memory {
            first,
            windows,
            image,
        })
    }

    // The window with a byte.
    pub fn window(&self, at: u64) -> Option<Span>
        ensures { HeldBy result (windows_of self.now.windows.now) (length self.now.image.now) at }
    {
        window_of(self.first, self.windows, self.image.len(), at)
    }

    // The entry at an offset of a table's page, which is handed on where a window has the entry's last byte.
    pub fn table_entry<E: Entry>(&self, table: u64, offset: u64) -> Result<E, Missing>
        requires { (table % 4096 ≡ 0) × (offset < 4096) × (offset % (8 * E.WORDS) ≡ 0) }
        ensures result_value { fetched E.number result ≡ entry E.WORDS (memory_of self.now) (table + offset) }
        ensures offset_value { missed result (table + offset) ≡ table + offset }
    {
        match self.window(table + offset + (8 * E::WORDS - 1)) {
            Some(span) => Ok(E::load(table_page(span, self.image, table), offset as usize)),
            None => Err(Missing { at: table + offset }),
        }
    }

    // An entry of 32 bytes, held as one of 64 whose upper half is 0. Where its second half is missing, it is still the entry that is named.
    pub fn table_entry32(&self, table: u64, offset: u64) -> Result<Entry64, Missing>
        requires { (table % 4096 ≡ 0) × (offset < 4096) × (offset % 32 ≡ 0) }
        ensures result_value { fetched64 result ≡ entry 4 (memory_of self.now) (table + offset) }
        ensures offset_value { missed result (table + offset) ≡ table + offset }
    {
        let low: Entry16 = self.table_entry(table, offset)?;
        let Ok(high) = self.table_entry::<Entry16>(table, offset + 16) else {
            return Err(Missing { at: table + offset });
        };
        Ok(Entry64 {
            w0: low.low,
            w1: low.high,
            w2: high.low,
            w3: high.high,
            w4: 0,
            w5: 0,
            w6: 0,
            w7: 0,
        })
    }

    // The entry at a host address that is a multiple of its size.
    pub fn entry<E: Entry>(&self, at: u64) -> Result<E, Missing>
        requires { at % (8 * E.WORDS) ≡ 0 }
        ensures result_value { fetched E.number result ≡ entry E.WORDS (memory_of self.now) at }
        ensures at_value { missed result at ≡ at }
    {
        match place_of(
            self.first,
            self.windows,
            self.image.len(),
            at,
            8 * E::WORDS - 1,
        ) {
            Some(from) => Ok(E::load(self.image, from)),
            None => Err(Missing { at }),
        }
    }
}

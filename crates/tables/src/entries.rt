// Entries of tables in a run of bytes.
ghost use Rattle.std.specs.Prelude.{◌≡◌, ◌+◌, ◌^◌, ◌<◌};
ghost use Rattle.dma.specs.Walk.{place_in};
ghost use Rattle.tables.specs.Tables.{held_entry, present, maps_page, table_of, empty_table, words_zeroed};

use dma::entry_offset;
use image::{field, in_place, store8, word_or_zero};

#[tactic(auto, unfolding(crate::specs::Tables::held_entry))]
pub fn entry_of(bytes: &[u8], at: u64) -> u64
    ensures { result ≡ held_entry bytes.now at }
{
    word_or_zero(bytes, at)
}

// Bits 1:0 are not both clear.
pub fn is_present(e: u64) -> bool
    ensures { result ≡ present e }
{
    field(e, 1, 0) != 0
}

// A present entry that maps a page; any other leads to a table.
pub fn maps_page(below: u32, e: u64) -> bool
    ensures { result ≡ maps_page below e }
{
    (below == 0) | ((below == 1) & (field(e, 7, 7) == 1))
}

// The table that an entry leads to.
pub fn table_of(start: u64, e: u64) -> u64
    ensures { (result ≡ table_of start e) × (result < 2 ^ 52) }
{
    in_place(e, 51, 12).saturating_sub(start)
}

// The place of an entry on the way to an address.
pub(crate) fn place_of(address: u64, table: u64, below: u32) -> u64
    requires { (table < 2 ^ 63) × (below < 5) }
    ensures { (result ≡ place_in address table below) × (result < table + 4096) }
{
    table + entry_offset(address, below)
}

// None of a table's entries is present.
pub fn is_empty(bytes: &[u8], table: u64) -> bool
    requires { table < 2 ^ 63 }
    ensures { result ≡ empty_table bytes.now table }
{
    (0..512).all(|word| !is_present(entry_of(bytes, table + 8 * word)))
}

// A table all zero.
pub(crate) fn clear_table(bytes: &mut [u8], table: u64)
    requires { table < 2 ^ 63 }
    ensures { bytes.new ≡ words_zeroed 512 bytes.old table }
{
    for word in 0..512 {
        store8(bytes, table + 8 * word, 0);
    }
}

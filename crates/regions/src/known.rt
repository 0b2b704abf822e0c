// Tables below which nothing is listed, remembered in lent memory, so that tables which point to each other are not walked again and again.
// A number for each, at a place that it shares with few others: one that is overwritten is worked out once more.
ghost use Rattle.std.specs.Prelude.{true, IfSome, ◌≡◌, length, replicate, ◌+◌, ◌*◌, ◌/◌, ◌%◌, ◌^◌, ◌<◌, ◌≤◌};
ghost use Rattle.image.specs.Answers.{memory_of};
ghost use Rattle.regions.specs.Known.{rights_number, key_of, StandsIn, Remembers, Sound, QuietAround, QuietTo};
ghost use Rattle.regions.specs.Outside.{table_outside};

use crate::tables::{Reached, Tables};
use crate::walk::{at_top, table_step};
use image::{Memory, place64};
use registers::Page4K;
use translation::Rights;

// Bit 0 read, bit 1 write.
pub fn rights_number(rights: Rights) -> u64
    ensures { (result ≡ rights_number rights) × (result < 4) }
{
    rights.read as u64 + 2 * rights.write as u64
}

fn key(at: Reached) -> u64
    ensures { result ≡ key_of at.table at.level at.rights }
{
    at.table + (4 * at.level as u64 + rights_number(at.rights))
}

// Where a key stands: by its table's place in the run, so that no two whole tables share a place where there is room for all.
fn slot(memory: &Memory, table: u64, key: u64, room: usize) -> usize
    requires { (0 < room) × (table % 4096 ≡ 0) }
    ensures { result < room }
{
    let page = place64(memory.windows, memory.image.len(), table) / 4096;
    (16 * page + (key % 16) as usize) % room
}

// Nothing is known at first, and nothing is left in the lent memory at last.
pub fn forget(known: &mut [u64])
    ensures { known.new ≡ replicate (length known.old) 0 }
{
    known.fill(0);
}

fn is_known(memory: &Memory, known: &[u64], at: Reached) -> bool
    ensures { result ≡ true → StandsIn known.now (key_of at.table at.level at.rights) }
{
    if known.is_empty() {
        return false;
    }
    let key = key(at);
    let place = slot(memory, at.table, key, known.len());
    known[place] == key
}

// The bytes that a table of a level spans.
pub fn table_span(level: u32) -> u64
    requires { level ≤ 5 }
    ensures { (result ≡ 2 ^ (12 + 9 * level)) × (0 < result) × (result ≤ 2 ^ 57) }
{
    1u64 << (Page4K::SHIFT + 9 * level)
}

// A table that lists nothing is remembered where its span ends with an address and begins no earlier than from.
fn remember(memory: &Memory, from: u64, last: u64, at: Reached, known: &mut [u64])
    requires { (from < 2 ^ 60) × (last < 2 ^ 60) }
    ensures { Remembers known.old known.new (key_of at.table at.level at.rights) from last at.level }
{
    let span = table_span(at.level);
    if (last + 1) % span != 0 {
        return;
    }
    if last + 1 < from + span {
        return;
    }
    if known.is_empty() {
        return;
    }
    let key = key(at);
    let place = slot(memory, at.table, key, known.len());
    known[place] = key;
}

// The level of the highest known table on the walk of an address.
pub fn known_level(memory: &Memory, tables: Tables, address: u64, known: &[u64]) -> Option<u32>
    requires { Sound tables.registers (memory_of memory.now) (table_outside memory.now.windows.now) known.now }
    ensures { IfSome result (λ level. (0 < level) × (level ≤ 5)
        × QuietAround tables.registers (memory_of memory.now) (table_outside memory.now.windows.now) tables.levels tables.top level address) }
{
    // Part by part, as region_at.
    let mut level = tables.levels;
    let mut table = tables.top;
    let mut above = at_top(tables).rights;
    for _ in 0..tables.levels {
        let at = Reached {
            level,
            table,
            rights: above,
        };
        if is_known(memory, known, at) {
            return Some(level);
        }
        let next = table_step(memory, tables.registers, address, at).ok()?;
        level = next.level;
        table = next.table;
        above = next.rights;
    }
    None
}

// Nothing is listed from an address up to the last one: of the tables on the walk of the last, those that begin no earlier and end there
// list nothing.
pub fn remember_tables(memory: &Memory, tables: Tables, from: u64, last: u64, known: &mut [u64])
    requires { (from < 2 ^ 60) × (last < 2 ^ 60)
        × QuietTo tables.registers (memory_of memory.now) (table_outside memory.now.windows.now) tables.levels tables.top from (last + 1)
        × Sound tables.registers (memory_of memory.now) (table_outside memory.now.windows.now) known.old }
    ensures { (length known.new ≡ length known.old)
        × Sound tables.registers (memory_of memory.now) (table_outside memory.now.windows.now) known.new }
{
    // Part by part, as region_at.
    let mut level = tables.levels;
    let mut table = tables.top;
    let mut above = at_top(tables).rights;
    for _ in 0..tables.levels {
        let at = Reached {
            level,
            table,
            rights: above,
        };
        remember(memory, from, last, at, known);
        let Ok(next) = table_step(memory, tables.registers, last, at) else {
            return;
        };
        level = next.level;
        table = next.table;
        above = next.rights;
    }
}

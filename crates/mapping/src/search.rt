// The next span that is listed.
ghost use Rattle.std.specs.Prelude.{false, ◌≡◌, length, ◌+◌, ◌-◌, ◌%◌, ◌^◌, ◌<◌, ◌≤◌};
ghost use Rattle.image.specs.Answers.{memory_of};
ghost use Rattle.dma.specs.InterruptRange.{span_at};
ghost use Rattle.regions.specs.Answers.{region_of};
ghost use Rattle.regions.specs.Known.{Sound};
ghost use Rattle.regions.specs.Outside.{table_outside};
ghost use Rattle.mapping.specs.Answers.{next_of};
ghost use Rattle.mapping.specs.Mapping.{regions_over};
ghost use Rattle.mapping.specs.Search.{Fresh, Tells, IsNext};

use image::Memory;
use regions::{Region, Tables, empty_region, known_level, region_at, remember_tables, table_span};

// The address behind the block of a level that an address is in.
fn block_end(address: u64, level: u32) -> u64
    requires { (address < 2 ^ 58) × (0 < level) × (level ≤ 6) }
    ensures { (result ≡ address - address % span_at level + span_at level) × (result ≤ address + 2 ^ 57) }
{
    let span = table_span(level - 1);
    address - address % span + span
}

// A table that is known to list nothing stands for all of its span.
fn quick_region(memory: &Memory, tables: Tables, address: u64, known: &[u64]) -> Region
    requires { Sound tables.registers (memory_of memory.now) (table_outside memory.now.windows.now) known.now }
    ensures { Tells (regions_over tables memory.now.windows.now memory.now.image.now) address (region_of result) }
{
    match known_level(memory, tables, address, known) {
        Some(level) => empty_region(level + 1),
        None => region_at(memory, tables, address),
    }
}

// Where it begins, and its region.
pub(crate) fn next_span(
    memory: &Memory,
    tables: Tables,
    end: u64,
    from: u64,
    known: &mut [u64],
) -> Option<(u64, Region)>
    requires { (end ≤ 2 ^ 57) × (end % 4096 ≡ 0) × (from % 4096 ≡ 0) × (from < 2 ^ 59)
        × Fresh (regions_over tables memory.now.windows.now memory.now.image.now) from
        × Sound tables.registers (memory_of memory.now) (table_outside memory.now.windows.now) known.old }
    ensures next { IsNext (regions_over tables memory.now.windows.now memory.now.image.now) end from (next_of result) }
    ensures known_len_unchanged { (length known.new ≡ length known.old)
        × Sound tables.registers (memory_of memory.now) (table_outside memory.now.windows.now) known.new }
{
    let mut at = from;
    // A while: the region found at each step tells how far the next one is.
    while at < end {
        let region = quick_region(memory, tables, at, known);
        if region.what.is_some() {
            return Some((at, region));
        }
        at = block_end(at, region.level);
        remember_tables(memory, tables, from, at - 1, known);
    }
    None
}

// Bytes that a region shares with root, context and interrupt tables and posted descriptors.
ghost use Rattle.std.specs.Prelude.{false, ◌≡◌, ◌+◌, ◌*◌, ◌%◌, ◌^◌, ◌<◌, ◌≤◌};
ghost use Rattle.image.specs.Answers.{number16, memory_of};
ghost use Rattle.registers.specs.Registers.{registers_bad};
ghost use Rattle.region.specs.Shared.{meets as shares_byte, meets_context_table, meets_descriptor, meets_named, meets_named_at, any_named, interrupt_entries, shares_tables};

use crate::Area;
use dma::table_address;
use image::{Entry, Entry16, Memory};
use irte::descriptor_address;
use registers::{Page4K, Registers};

// Neither sum can wrap: that of the other bytes isn't made.
fn meets(area: Area, other: u64, n: u64) -> bool
    requires { (area.start + area.size < 2 ^ 63) × (0 < n) }
    ensures { result ≡ shares_byte area.start area.size other n }
{
    if area.size == 0 {
        return false;
    }
    if area.start + area.size <= other {
        return false;
    }
    if area.start < n {
        return true;
    }
    area.start - n < other
}

fn meets_context_table(area: Area, e: Entry16) -> bool
    requires { area.start + area.size < 2 ^ 63 }
    ensures { result ≡ meets_context_table area.start area.size (number16 e) }
{
    e.bit(0) & meets(area, table_address(e), Page4K::SPAN)
}

fn meets_descriptor(area: Area, e: Entry16) -> bool
    requires { area.start + area.size < 2 ^ 63 }
    ensures { result ≡ meets_descriptor area.start area.size (number16 e) }
{
    e.bit(0) & e.bit(15) & meets(area, descriptor_address(e), 64)
}

fn meets_named(posted: bool, area: Area, e: Entry16) -> bool
    requires { area.start + area.size < 2 ^ 63 }
    ensures { result ≡ meets_named posted area.start area.size (number16 e) }
{
    if posted {
        return meets_descriptor(area, e);
    }
    meets_context_table(area, e)
}

// What an entry at an address names, if it can be fetched.
fn meets_named_at(memory: &Memory, posted: bool, area: Area, at: u64) -> bool
    requires { (area.start + area.size < 2 ^ 63) × (at % 16 ≡ 0) }
    ensures { result ≡ meets_named_at posted area.start area.size (memory_of memory.now) at }
{
    memory
        .entry::<Entry16>(at)
        .is_ok_and(|e| meets_named(posted, area, e))
}

fn any_named(memory: &Memory, posted: bool, area: Area, table: u64, entries: u64) -> bool
    requires { (area.start + area.size < 2 ^ 63) × (table % 16 ≡ 0) × (table + 16 * entries < 2 ^ 64) }
    ensures { result ≡ any_named posted area.start area.size (memory_of memory.now) entries table }
{
    (0..entries).any(|entry| meets_named_at(memory, posted, area, table + 16 * entry))
}

fn interrupt_entries(registers: Registers) -> u64
    requires { registers.s ≤ 15 }
    ensures { (result ≡ interrupt_entries registers) × (0 < result) × (result ≤ 65536) }
{
    1u64 << (registers.s + 1)
}

#[tactic(auto, unfolding(crate::specs::Shared::shares_tables))]
pub(crate) fn shares_tables(memory: &Memory, registers: Registers, area: Area) -> bool
    requires { (registers_bad registers ≡ false) × (area.start + area.size < 2 ^ 63) }
    ensures { result ≡ shares_tables registers area.start area.size (memory_of memory.now) }
{
    let entries = interrupt_entries(registers);
    meets(area, registers.root_table, Page4K::SPAN)
        || any_named(memory, false, area, registers.root_table, 256)
        || meets(area, registers.interrupt_table, 16 * entries)
        || any_named(memory, true, area, registers.interrupt_table, entries)
}

// A page entry: 8 bytes, at a level from 5 down to 1.
ghost use Rattle.std.specs.Prelude.{false, IfErr, ◌≡◌, length, ◌+◌, ◌*◌, ◌-◌, ◌%◌, ◌<◌, ◌≤◌};
ghost use Rattle.image.specs.Answers.{fetched8};
ghost use Rattle.image.specs.Memory.{entry};
ghost use Rattle.image.specs.Place.{entry_at};
ghost use Rattle.image.specs.Answers.{memory_of};
ghost use Rattle.dma.specs.InterruptRange.{meets_interrupt_range, span_at};
ghost use Rattle.dma.specs.Page.{denied, own_right, leaf_at, page_reserved, page_check, host_address};
ghost use Rattle.faults.specs.Reason.{number_of};
ghost use Rattle.dma.specs.Answers.{check_of, CheckNames, step_of, StepNames};
ghost use Rattle.dma.specs.Translation.{leaf, Reachable, page_over};
ghost use Rattle.dma.specs.Walk.{place_in};

use crate::entry::entry_offset;
use faults::{Reason, Stop};
use image::{Memory, Missing, bit, field, in_place};
use registers::{Page1G, Page4K, Registers, at_or_above_power};

// What is the same at all levels of a walk, but for the registers, which would be kept in memory as a part of it.
#[derive(Clone, Copy)]
pub struct Walk {
    pub address: u64,
    pub fpd: bool,
}

// A page entry: its host address, and what is found there. The address stands beside the Result, since a stop names it where it was found, too.
#[derive(Clone, Copy)]
pub struct Fetch {
    pub at: u64,
    pub found: Result<u64, Missing>,
}

// What the walk makes of an entry.
#[derive(Clone, Copy)]
pub(crate) enum Step {
    // The next table.
    Down(u64),
    // The frame of a page, and the entry's level.
    Leaf(u64, u32),
}

// A page and no table: bit 7 at level 1 is not looked at.
pub fn is_leaf(level: u32, e: u64) -> bool
    ensures { result ≡ leaf_at level e }
{
    (level == 1) | bit(e, 7)
}

// Bits 51:HAW; bit 7 where the level has no large pages; and of a large page 20:12 or 29:12.
pub fn page_reserved(registers: Registers, level: u32, e: u64) -> bool
    ensures { result ≡ page_reserved registers level e }
{
    let beyond = at_or_above_power(field(e, 51, 0), registers.haw as u32);
    if field(e, 7, 7) != 1 {
        return beyond;
    }
    if level == 2 {
        return beyond | !registers.pages_2m | (field(e, 20, 12) != 0);
    }
    if level == 3 {
        return beyond | !registers.pages_1g | (field(e, 29, 12) != 0);
    }
    beyond | (4 <= level)
}

// Bit 0 for a read, bit 1 for a write.
fn own_right(write: bool, e: u64) -> bool
    ensures { result ≡ own_right write e }
{
    if write {
        return bit(e, 1);
    }
    bit(e, 0)
}

fn denial(write: bool) -> Reason
    ensures { number_of result ≡ denied write }
{
    if write {
        Reason::WriteDenied
    } else {
        Reason::ReadDenied
    }
}

// The next table or a page's frame; page_step tells them apart.
#[tactic(auto, unfolding(crate::specs::Page::page_check))]
fn page_check(
    registers: Registers,
    write: bool,
    fpd: bool,
    level: u32,
    at: u64,
    e: u64,
) -> Result<u64, Stop<Reason>>
    ensures result_value { check_of result ≡ page_check registers write level e }
    ensures check_names { CheckNames result (entry_at at) }
    ensures given_fpd { IfErr result (λ s. s.fpd ≡ fpd) }
{
    if field(e, 1, 0) == 0 {
        return Err(Stop {
            reason: denial(write),
            fpd,
            at,
        });
    }
    if page_reserved(registers, level, e) {
        return Err(Stop {
            reason: Reason::PageEntryReserved,
            fpd,
            at,
        });
    }
    if !own_right(write, e) {
        return Err(Stop {
            reason: denial(write),
            fpd,
            at,
        });
    }
    Ok(in_place(e, 51, 12))
}

// The entry for an address in a table: below is how many levels come after it.
pub fn fetch_entry(memory: &Memory, address: u64, below: u32, table: u64) -> Fetch
    requires { (below < 5) × (table % 4096 ≡ 0) }
    ensures at_value { result.at ≡ place_in address table below }
    ensures found_value { fetched8 result.found ≡ entry 1 (memory_of memory.now) (place_in address table below) }
{
    let offset = entry_offset(address, below);
    let at = table + offset;
    let found = memory.table_entry(table, offset);
    Fetch { at, found }
}

// One level of the walk.
pub(crate) fn page_step(
    memory: &Memory,
    registers: Registers,
    walk: Walk,
    write: bool,
    below: u32,
    table: u64,
) -> Result<Step, Stop<Reason>>
    requires { (below < 5) × (table % 4096 ≡ 0) }
    ensures result_value { step_of result ≡ page_over registers walk.address write walk.fpd (memory_of memory.now) below table }
    ensures step_names { StepNames result (entry_at (place_in walk.address table below)) }
{
    let Fetch { at, found } = fetch_entry(memory, walk.address, below, table);
    let Ok(e) = found else {
        return Err(Stop {
            reason: Reason::PageEntryAccess,
            fpd: walk.fpd,
            at,
        });
    };
    let level = below + 1;
    let frame = page_check(registers, write, walk.fpd, level, at, e)?;
    if is_leaf(level, e) {
        return Ok(Step::Leaf(frame, level));
    }
    Ok(Step::Down(frame))
}

// A page's bytes, by the level of its leaf: a shift by the level, where a choice among the page sizes costs branches.
fn span_at(level: u32) -> u64
    requires { (0 < level) × (level ≤ 3) }
    ensures { result ≡ span_at level }
{
    1u64 << (Page4K::SHIFT + 9 * (level - 1))
}

// The frame plus the address's low 12, 21 or 30 bits.
pub fn host_address(level: u32, frame: u64, address: u64) -> u64
    requires { Reachable (leaf frame level) }
    ensures { result ≡ host_address level frame address }
{
    frame + address % span_at(level)
}

// Some byte of the page lies in the interrupt range. A page has at most 1 GiB, so most frames are told by themselves.
pub fn meets_interrupt_range(level: u32, frame: u64) -> bool
    requires { Reachable (leaf frame level) }
    ensures { result ≡ meets_interrupt_range frame (span_at level) }
{
    if frame <= 0xFEE0_0000 - Page1G::SPAN {
        return false;
    }
    if 0xFEEF_FFFF < frame {
        return false;
    }
    0xFEE0_0000 < frame + span_at(level)
}

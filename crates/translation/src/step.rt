// What the walk of a translation request makes of a page entry.
ghost use Rattle.std.specs.Prelude.{◌≡◌, ◌<◌, ◌%◌};
ghost use Rattle.image.specs.Place.{entry_at};
ghost use Rattle.image.specs.Answers.{memory_of};
ghost use Rattle.dma.specs.Walk.{place_in};
ghost use Rattle.translation.specs.Answers.{step_of, StepNames};
ghost use Rattle.translation.specs.Completion.{entry_step, entry_over};

use crate::Rights;
use dma::{Fetch, Walk, fetch_entry, is_leaf, page_reserved};
use faults::{Reason, Stop};
use image::{Memory, field, in_place};
use registers::Registers;

// A page that a walk ends with: its frame, the level of its entry, and the joined rights.
#[derive(Clone, Copy, Debug, PartialEq, Eq)]
pub struct Page {
    pub frame: u64,
    pub level: u32,
    pub rights: Rights,
}

#[derive(Clone, Copy, Debug, PartialEq, Eq)]
pub enum Step {
    // The next table, and the rights joined so far.
    Down(u64, Rights),
    Page(Page),
    // No right is left.
    Empty,
}

// The entry's rights are joined with those above it once its reserved bits are checked.
fn joined_step(
    registers: Registers,
    above: Rights,
    fpd: bool,
    level: u32,
    at: u64,
    e: u64,
) -> Result<Step, Stop<Reason>>
    ensures result_value { step_of result ≡ entry_step registers fpd level at above e }
    ensures step_names { StepNames result (entry_at at) }
{
    if field(e, 1, 0) == 0 {
        return Ok(Step::Empty);
    }
    if page_reserved(registers, level, e) {
        return Err(Stop {
            reason: Reason::PageEntryReserved,
            fpd,
            at,
        });
    }
    let read = above.read & (field(e, 0, 0) == 1);
    let write = above.write & (field(e, 1, 1) == 1);
    if !(read | write) {
        return Ok(Step::Empty);
    }
    let rights = Rights { read, write };
    let frame = in_place(e, 51, 12);
    if is_leaf(level, e) {
        return Ok(Step::Page(Page {
            frame,
            level,
            rights,
        }));
    }
    Ok(Step::Down(frame, rights))
}

// One level of the walk: below is how many levels come after it.
pub fn entry_step(
    memory: &Memory,
    registers: Registers,
    walk: Walk,
    below: u32,
    table: u64,
    above: Rights,
) -> Result<Step, Stop<Reason>>
    requires { (below < 5) × (table % 4096 ≡ 0) }
    ensures result_value { step_of result ≡ entry_over registers walk.address walk.fpd (memory_of memory.now) below table above }
    ensures step_names { StepNames result (entry_at (place_in walk.address table below)) }
{
    let Fetch { at, found } = fetch_entry(memory, walk.address, below, table);
    let Ok(e) = found else {
        return Err(Stop {
            reason: Reason::PageEntryAccess,
            fpd: walk.fpd,
            at,
        });
    };
    joined_step(registers, above, walk.fpd, below + 1, at, e)
}

// What the first-level walk makes of an entry.
ghost use Rattle.std.specs.Prelude.{◌≡◌, ◌<◌};
ghost use Rattle.image.specs.Place.{entry_at};
ghost use Rattle.pasid.specs.Reason.{number_of};
ghost use Rattle.first.specs.Answers.{first_step_of, FirstNames};
ghost use Rattle.first.specs.First.{first_step, unfetchable_reason, Reachable};

use crate::entry::{first_reserved, flag_clear, user_denied, write_denied};
use dma::is_leaf;
use faults::Stop;
use image::{field, in_place};
use pasid::{PasidEntry, ScalableReason, ScalableRegisters};
use registers::Page4K;

#[derive(Clone, Copy)]
pub enum FirstStep {
    // The next table.
    Down(u64),
    // The frame of a page, and the entry's level.
    Page(u64, u32),
}

// An entry that can't be fetched.
pub fn unfetchable(top: bool) -> ScalableReason
    ensures { number_of result ≡ unfetchable_reason top }
{
    if top {
        return ScalableReason::FirstLevelTopAccess;
    }
    ScalableReason::FirstLevelAccess
}

// What the entry leads to, or why the walk ends here. way_writable: the second level lets the entry itself be written; true where the entry isn't found through it.
#[tactic(auto, unfolding(crate::specs::First::first_step))]
pub fn first_step(
    registers: ScalableRegisters,
    entry: PasidEntry,
    write: bool,
    way_writable: bool,
    level: u32,
    at: u64,
    e: u64,
) -> Result<FirstStep, Stop<ScalableReason>>
    requires { 0 < level }
    ensures result_value { first_step_of result ≡ first_step registers entry write way_writable level e }
    ensures first_names { FirstNames result (entry_at at) }
    ensures reachable { Reachable (first_step_of result) }
{
    if field(e, 0, 0) != 1 {
        return Err(entry.stop(ScalableReason::FirstLevelNotPresent, at));
    }
    if first_reserved(registers, entry.nxe, level, e) {
        return Err(entry.stop(ScalableReason::FirstLevelReserved, at));
    }
    let leaf = is_leaf(level, e);
    let clear = flag_clear(entry, write, leaf, e);
    if clear & !(registers.smpwc & entry.pwsnp) {
        return Err(entry.stop(ScalableReason::FlagsNotSnooped, at));
    }
    if user_denied(entry, e) {
        return Err(entry.stop(ScalableReason::UserDenied, at));
    }
    if write_denied(entry, write, way_writable, clear, e) {
        return Err(entry.stop(ScalableReason::WriteDenied, at));
    }
    if leaf {
        let frame = in_place(e, 51, Page4K::SHIFT + 9 * (level - 1));
        return Ok(FirstStep::Page(frame, level));
    }
    Ok(FirstStep::Down(in_place(e, 51, 12)))
}

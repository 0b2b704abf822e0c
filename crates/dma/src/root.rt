// The root entry: 16 bytes for each bus, in the page of the root table.
ghost use Rattle.std.specs.Prelude.{false, ◌≡◌, IfErr};
ghost use Rattle.image.specs.Answers.{number16};
ghost use Rattle.dma.specs.Root.{root_reserved, root_check};
ghost use Rattle.image.specs.Place.{entry_at};
ghost use Rattle.dma.specs.Answers.{check_of, CheckNames};

use crate::entry::{present, table_address};
use faults::{Reason, Stop};
use image::{Entry, Entry16};
use registers::at_or_above_power;

// Bits 11:1, 127:64 and 63:HAW.
fn root_reserved(haw: u8, e: Entry16) -> bool
    ensures { result ≡ root_reserved haw (number16 e) }
{
    e.any_set(11, 1) | e.any_set(127, 64) | at_or_above_power(e.low, haw as u32)
}

// The context table's address. A root entry has no FPD.
#[tactic(auto, unfolding(crate::specs::Root::root_check))]
pub(crate) fn root_check(haw: u8, at: u64, e: Entry16) -> Result<u64, Stop<Reason>>
    ensures result_value { check_of result ≡ root_check haw (number16 e) }
    ensures check_names { CheckNames result (entry_at at) }
    ensures no_fpd { IfErr result (λ s. s.fpd ≡ false) }
{
    if !present(e) {
        return Err(Stop {
            reason: Reason::RootNotPresent,
            fpd: false,
            at,
        });
    }
    if root_reserved(haw, e) {
        return Err(Stop {
            reason: Reason::RootReserved,
            fpd: false,
            at,
        });
    }
    Ok(table_address(e))
}

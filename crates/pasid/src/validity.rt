// The PASID table entry's check.
ghost use Rattle.std.specs.Prelude.{◌≡◌};
ghost use Rattle.image.specs.Answers.{number64};
ghost use Rattle.pasid.specs.Answers.{table_checked};
ghost use Rattle.pasid.specs.Table.{type_supported, mode_supported, table_invalid, table_check};

use crate::ScalableRegisters;
use crate::reason::ScalableReason;
use crate::table::{
    PasidEntry, address_width, paging_mode, pasid_entry_of, table_reserved, translation_type,
};
use dma::width_supported;
use image::{Entry, Entry64};

fn type_supported(registers: ScalableRegisters, pgtt: u64) -> bool
    ensures { result ≡ type_supported registers pgtt }
{
    // All are read: a load chosen by PGTT would keep the registers in memory.
    ((pgtt == 1) & registers.flts)
        | ((pgtt == 2) & registers.slts)
        | ((pgtt == 3) & registers.nest)
        | ((pgtt == 4) & registers.pt)
}

fn mode_supported(registers: ScalableRegisters, flpm: u64) -> bool
    ensures { result ≡ mode_supported registers flpm }
{
    (flpm == 0) | ((flpm == 1) & registers.fl5lp)
}

// PGTT; AW where there is a second level, FLPM where there is a first.
#[tactic(auto, unfolding(crate::specs::Table::table_invalid))]
fn table_invalid(registers: ScalableRegisters, e: Entry64) -> bool
    ensures { result ≡ table_invalid registers (number64 e) }
{
    let pgtt = translation_type(e);
    let second = (pgtt == 2) | (pgtt == 3);
    let first = (pgtt == 1) | (pgtt == 3);
    !type_supported(registers, pgtt)
        | (second & !width_supported(registers.base, address_width(e)))
        | (first & !mode_supported(registers, paging_mode(e)))
}

// What the entry says, or why the request ends here. fpd: of the entries before it.
#[tactic(auto, unfolding(crate::specs::Table::table_check))]
pub fn table_check(
    registers: ScalableRegisters,
    privileged: bool,
    fpd: bool,
    e: Entry64,
) -> Result<PasidEntry, ScalableReason>
    ensures { table_checked result ≡ table_check registers privileged fpd (number64 e) }
{
    if !e.bit(0) {
        return Err(ScalableReason::TableNotPresent);
    }
    if table_reserved(registers, e) {
        return Err(ScalableReason::TableReserved);
    }
    if table_invalid(registers, e) {
        return Err(ScalableReason::TableInvalid);
    }
    if privileged & !e.bit(128) {
        return Err(ScalableReason::SupervisorDenied);
    }
    Ok(pasid_entry_of(privileged, fpd, e))
}

// A first-level entry: its reserved bits, its flags, its rights.
ghost use Rattle.std.specs.Prelude.{◌≡◌};
ghost use Rattle.first.specs.First.{first_reserved, flag_clear, user_denied, write_denied};

use image::{bit, field};
use pasid::{PasidEntry, ScalableRegisters};
use registers::at_or_above_power;

// Bits 51:HAW; bit 7 where the level has no large pages; of a large page 20:13 or 29:13; bit 63 without NXE.
pub(crate) fn first_reserved(registers: ScalableRegisters, nxe: bool, level: u32, e: u64) -> bool
    ensures { result ≡ first_reserved registers nxe level e }
{
    let beyond = at_or_above_power(field(e, 51, 0), registers.base.haw as u32);
    let no_execute = (field(e, 63, 63) == 1) & !nxe;
    if field(e, 7, 7) != 1 {
        return beyond | no_execute;
    }
    if level == 2 {
        return beyond | (field(e, 20, 13) != 0) | no_execute;
    }
    if level == 3 {
        return beyond | !registers.fl1gp | (field(e, 29, 13) != 0) | no_execute;
    }
    beyond | (4 <= level) | no_execute
}

// A flag that a granted request sets is still clear: A, D in the entry of a page that is written, EA with EAFE.
pub fn flag_clear(entry: PasidEntry, write: bool, leaf: bool, e: u64) -> bool
    ensures { result ≡ flag_clear entry write leaf e }
{
    let accessed = bit(e, 5);
    let dirty = bit(e, 6);
    let extended = bit(e, 10);
    !accessed | (leaf & write & !dirty) | (entry.eafe & !extended)
}

// A user's request needs U/S.
pub(crate) fn user_denied(entry: PasidEntry, e: u64) -> bool
    ensures { result ≡ user_denied entry e }
{
    let user = bit(e, 2);
    !entry.privileged & !user
}

// A write needs R/W, a privileged one only with WPE; a flag that has to be set needs a way that may be written.
pub(crate) fn write_denied(
    entry: PasidEntry,
    write: bool,
    way_writable: bool,
    clear: bool,
    e: u64,
) -> bool
    ensures { result ≡ write_denied entry write way_writable clear e }
{
    let writable = bit(e, 1);
    (write & (!entry.privileged | entry.wpe) & !writable) | (clear & !way_writable)
}

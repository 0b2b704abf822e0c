// The PASID directory entry, 8 bytes.
ghost use Rattle.std.specs.Prelude.{◌≡◌};
ghost use Rattle.pasid.specs.Answers.{directory_checked};
ghost use Rattle.pasid.specs.Directory.{directory_reserved, directory_check};

use crate::reason::ScalableReason;
use image::{field, in_place};
use registers::at_or_above_power;

// The PASID table that the entry leads to, and FPD of the context or of this entry.
#[derive(Clone, Copy)]
pub struct PasidTable {
    pub address: u64,
    pub fpd: bool,
}

// Bits 11:2 and 63:HAW.
fn directory_reserved(haw: u8, e: u64) -> bool
    ensures { result ≡ directory_reserved haw e }
{
    (field(e, 11, 2) != 0) | at_or_above_power(e, haw as u32)
}

// The PASID table, or why the request ends here. fpd: of the context.
#[tactic(auto, unfolding(crate::specs::Directory::directory_check))]
pub fn directory_check(haw: u8, fpd: bool, e: u64) -> Result<PasidTable, ScalableReason>
    ensures { directory_checked result ≡ directory_check haw fpd e }
{
    if field(e, 0, 0) != 1 {
        return Err(ScalableReason::DirectoryNotPresent);
    }
    if directory_reserved(haw, e) {
        return Err(ScalableReason::DirectoryReserved);
    }
    Ok(PasidTable {
        address: in_place(e, 63, 12),
        fpd: fpd | (field(e, 1, 1) == 1),
    })
}

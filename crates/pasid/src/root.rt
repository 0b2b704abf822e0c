// The root entry of scalable mode: two halves of 8 bytes, the lower for devices 0 to 15 of a bus, the upper for devices 16 to 31.
ghost use Rattle.std.specs.Prelude.{◌≡◌};
ghost use Rattle.image.specs.Answers.{number16};
ghost use Rattle.pasid.specs.Answers.{root_checked};
ghost use Rattle.pasid.specs.Root.{half, half_reserved, root_reserved, root_check};

use crate::reason::ScalableReason;
use image::{Entry16, field, in_place};
use registers::at_or_above_power;

fn half_of(upper: bool, e: Entry16) -> u64
    ensures { result ≡ half upper (number16 e) }
{
    if upper {
        return e.high;
    }
    e.low
}

// Bits 11:1 and 63:HAW of a half that is present.
fn half_reserved(haw: u8, half: u64) -> bool
    ensures { result ≡ half_reserved haw half }
{
    (field(half, 0, 0) == 1) & ((field(half, 11, 1) != 0) | at_or_above_power(half, haw as u32))
}

#[tactic(auto, unfolding(crate::specs::Root::root_reserved))]
fn root_reserved(haw: u8, e: Entry16) -> bool
    ensures { result ≡ root_reserved haw (number16 e) }
{
    half_reserved(haw, half_of(false, e)) | half_reserved(haw, half_of(true, e))
}

// The address of the context table, or why the request ends here. upper: bit 7 of device and function.
#[tactic(auto, unfolding(crate::specs::Root::root_check))]
pub fn root_check(haw: u8, upper: bool, e: Entry16) -> Result<u64, ScalableReason>
    ensures { root_checked result ≡ root_check haw upper (number16 e) }
{
    let half = half_of(upper, e);
    if field(half, 0, 0) != 1 {
        return Err(ScalableReason::RootNotPresent);
    }
    if root_reserved(haw, e) {
        return Err(ScalableReason::RootReserved);
    }
    Ok(in_place(half, 63, 12))
}

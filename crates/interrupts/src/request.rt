// The two formats of an interrupt request, told apart by bit 4 of its address.
ghost use Rattle.std.specs.Prelude.{◌≡◌, ◌^◌, ◌<◌};
ghost use Rattle.interrupts.specs.Request.{handle_of, request_check};
ghost use Rattle.interrupts.specs.Answers.{request_checked};

use faults::Reason;
use image::field;
use registers::Registers;

fn handle_of(address: u64) -> u32
    ensures { (result ≡ handle_of address) × (result < 2 ^ 16) }
{
    (field(address, 19, 5) + field(address, 2, 2) * 0x8000) as u32
}

// The index, a whole number up to 131,070: it doesn't wrap at 16 bits. None is of the compatibility format, which is passed unchanged.
pub(crate) fn request_check(
    registers: Registers,
    address: u64,
    data: u32,
) -> Result<Option<u32>, Reason>
    ensures { request_checked result ≡ request_check registers address «data» }
{
    if field(address, 4, 4) != 1 {
        if registers.eime | !registers.cfis {
            return Err(Reason::CompatibilityBlocked);
        }
        return Ok(None);
    }
    let handle = handle_of(address);
    if field(address, 3, 3) != 1 {
        return Ok(Some(handle));
    }
    if field(data as u64, 31, 16) != 0 {
        return Err(Reason::RequestReserved);
    }
    let subhandle = field(data as u64, 15, 0) as u32;
    let index = handle + subhandle;
    Ok(Some(index))
}

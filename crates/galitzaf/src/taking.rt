// A take's answer is its status alone: no buffer is lent for it.
ghost use Rattle.std.specs.Prelude.{◌≡◌};
ghost use Rattle.takes.specs.Answers.{take_outcome_of};
ghost use Rattle.galitzaf.specs.Takes.{take_status, take_call};

use packing::{BAD_REGISTERS, BAD_WINDOWS, NONE_STANDS, TAKEN, malformed, unpack};
use unit::{Refusal, take};

fn take_status(answer: Result<Option<u8>, Refusal>) -> u32
    ensures { result ≡ take_status (take_outcome_of answer) }
{
    match answer {
        Ok(Some(vector)) => TAKEN + vector as u32,
        Ok(None) => NONE_STANDS,
        Err(refusal) => refusal.number() as u32,
    }
}

#[tactic(auto, unfolding(crate::specs::Takes::take_call))]
#[unsafe(no_mangle)]
pub extern "C" fn galitzaf_take(
    registers: &[u8],
    windows: &[u64],
    image: &mut [u8],
    descriptor: u64,
) -> u32
    ensures { (result, image.new) ≡ take_call registers.now windows.now image.old descriptor }
{
    if malformed(registers) {
        return BAD_REGISTERS;
    }
    if windows.len() % 3 != 0 {
        return BAD_WINDOWS;
    }
    take_status(take(unpack(registers), windows, image, descriptor))
}

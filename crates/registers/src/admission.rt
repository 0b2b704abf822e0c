// Whether a request is taken up at all: two refusals, then the switch of its kind.
ghost use Rattle.std.specs.Prelude.{◌≡◌};
ghost use Rattle.registers.specs.Admission.{admission, in_interrupt_range};
ghost use Rattle.registers.specs.Answers.{admitted_of};

use crate::Registers;
use crate::refusal::Refusal;

#[derive(Clone, Copy, Debug, PartialEq, Eq)]
pub enum Admission {
    // Translation or remapping is off: the request goes on unchanged.
    Passed,
    Taken,
}

pub fn in_interrupt_range(address: u64) -> bool
    ensures { result ≡ in_interrupt_range address }
{
    (0xFEE0_0000 <= address) & (address <= 0xFEEF_FFFF)
}

// wrong_kind: the address is one of the other kind of request. on: the switch of this kind.
pub fn admit(registers: Registers, wrong_kind: bool, on: bool) -> Result<Admission, Refusal>
    ensures { admitted_of result ≡ admission registers wrong_kind on }
{
    if registers.bad() {
        return Err(Refusal::BadRegisters);
    }
    if wrong_kind {
        return Err(Refusal::WrongAddress);
    }
    if on {
        return Ok(Admission::Taken);
    }
    Ok(Admission::Passed)
}

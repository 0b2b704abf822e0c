// Which register or window refusal 1 is for.
ghost use Rattle.std.specs.Prelude.{◌≡◌};
ghost use Rattle.galitzaf.specs.FirstBad.{first_bad_call};

use packing::{BAD_REGISTERS, BAD_WINDOWS, NONE_BAD, malformed, unpack};
use refused::first_bad;

#[tactic(auto, unfolding(crate::specs::FirstBad::first_bad_call))]
#[unsafe(no_mangle)]
pub extern "C" fn galitzaf_first_bad(registers: &[u8], windows: &[u64], run: usize) -> u32
    ensures { result ≡ first_bad_call registers.now windows.now run }
{
    if malformed(registers) {
        return BAD_REGISTERS;
    }
    if windows.len() % 3 != 0 {
        return BAD_WINDOWS;
    }
    match first_bad(unpack(registers), windows, run) {
        Some(bad) => NONE_BAD + bad.number(),
        None => NONE_BAD,
    }
}

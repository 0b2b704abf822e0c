// The arguments that the calls of a device's requests have in common.
ghost use Rattle.std.specs.Prelude.{◌≡◌};
ghost use Rattle.packing.specs.Arguments.{argument_status};

use crate::status::{BAD_ANSWER, BAD_REGISTERS, BAD_WINDOWS, OK};
use crate::unpacking::malformed;

// The status where one of them isn't laid out as it should be; the size is that of the buffer for the answer. A number and no Result: it is
// what the C interface hands out, OK among the others.
pub fn bad_arguments(registers: &[u8], windows: &[u64], size: usize) -> u32
    ensures { result ≡ argument_status registers.now windows.now size }
{
    if malformed(registers) {
        return BAD_REGISTERS;
    }
    if windows.len() % 3 != 0 {
        return BAD_WINDOWS;
    }
    if size != 32 {
        return BAD_ANSWER;
    }
    OK
}

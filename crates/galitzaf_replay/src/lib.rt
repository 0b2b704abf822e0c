// The replay of traces, for C: a crate of its own, so that its object is one of its own. The compiler inlines a large function only where it
// has one caller, and replay calls what each request of galitzaf calls.
#![tactic(auto)]

ghost use Rattle.std.specs.Prelude.{◌≡◌};
ghost use Rattle.galitzaf_replay.specs.Replay.{trace_replay_call};

use packing::{BAD_REGISTERS, BAD_WINDOWS, malformed, unpack};
use trace_calls::replay_entry;

#[tactic(auto, unfolding(crate::specs::Replay::trace_replay_call))]
#[unsafe(no_mangle)]
pub extern "C" fn galitzaf_trace_replay(
    registers: &[u8],
    windows: &[u64],
    image: &mut [u8],
    trace: &[u8],
    cursor: &mut [u64],
    entry: &mut [u8],
) -> u32
    ensures { (result, image.new, cursor.new, entry.new) ≡ trace_replay_call registers.now windows.now image.old trace.now cursor.old entry.old }
{
    if malformed(registers) {
        return BAD_REGISTERS;
    }
    if windows.len() % 3 != 0 {
        return BAD_WINDOWS;
    }
    replay_entry(unpack(registers), windows, image, trace, cursor, entry)
}

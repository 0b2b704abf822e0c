// The calls on traces, exported for C: a static library is no library that others stand on, and replay and the claims stand on trace_calls.
// Its object is one of its own, which a unit that traces nothing doesn't link.
#![tactic(auto)]

ghost use Rattle.std.specs.Prelude.{◌≡◌};
ghost use Rattle.trace_calls.specs.Calls.{check_call, next_call, append_call, close_call};

// The block at a place of a trace.
#[unsafe(no_mangle)]
pub extern "C" fn galitzaf_trace_check(bytes: &[u8], place: u64) -> u32
    ensures { result ≡ check_call bytes.now place }
{
    trace_calls::galitzaf_trace_check(bytes, place)
}

#[unsafe(no_mangle)]
pub extern "C" fn galitzaf_trace_next(bytes: &[u8], cursor: &mut [u64], entry: &mut [u8]) -> u32
    ensures { (result, cursor.new, entry.new) ≡ next_call bytes.now cursor.old entry.old }
{
    trace_calls::galitzaf_trace_next(bytes, cursor, entry)
}

// A request with its answer's 32 bytes, behind the entries that the block holds.
#[unsafe(no_mangle)]
pub extern "C" fn galitzaf_trace_append(
    writer: &mut [u64],
    block: &mut [u8],
    kind: u8,
    source: u16,
    address: u64,
    data: u32,
    answer: &[u8],
) -> u32
    ensures { (result, writer.new, block.new) ≡ append_call writer.old block.old kind source address «data» answer.now }
{
    trace_calls::galitzaf_trace_append(writer, block, kind, source, address, data, answer)
}

#[unsafe(no_mangle)]
pub extern "C" fn galitzaf_trace_close(writer: &mut [u64], block: &mut [u8]) -> u32
    ensures { (result, writer.new, block.new) ≡ close_call writer.old block.old }
{
    trace_calls::galitzaf_trace_close(writer, block)
}

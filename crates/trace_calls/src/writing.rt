// A recorder of traces: its state is two numbers, the count of entries in the block and the block's number.
ghost use Rattle.std.specs.Prelude.{◌≡◌, Some, None, IfSome, if◌then◌else◌, length};
ghost use Rattle.trace.specs.Answers.{wrote_of};
ghost use Rattle.trace_calls.specs.Calls.{bad_writer, writer_in, numbers_of, status_of, writer_after, append_call, close_call};

use crate::{BAD_TRACE, BLOCK};
use answered::{asked, with_answer};
use packing::{BAD_ANSWER, OK};
use trace::{Refused, Writer, Wrote, append, close};

#[tactic(auto, unfolding(crate::specs::Calls::bad_writer))]
fn read(writer: &[u64], len: usize) -> Option<Writer>
    ensures value { result ≡ (if bad_writer writer.now len then None else Some (writer_in writer.now)) }
    ensures two { IfSome result (λ w. length writer.now ≡ 2) }
{
    let &[count, number] = writer else {
        return None;
    };
    if (len != 512) | (15 <= count) | (0x1_0000_0000_0000 <= number) {
        return None;
    }
    Some(Writer {
        count: count as u8,
        number,
    })
}

fn write(writer: &mut [u64], w: Writer)
    requires { length writer.old ≡ 2 }
    ensures { writer.new ≡ numbers_of w }
{
    writer.copy_from_slice(&[u64::from(w.count), w.number]);
}

// The writer's state after a call, and the call's status.
fn take_over(writer: &mut [u64], wrote: Result<Wrote, Refused>, refused: u32) -> u32
    requires { length writer.old ≡ 2 }
    ensures { (result ≡ status_of refused (wrote_of wrote)) × (writer.new ≡ writer_after writer.old (wrote_of wrote)) }
{
    match wrote {
        Ok(Wrote::Kept(w)) => {
            write(writer, w);
            OK
        }
        Ok(Wrote::Full(w)) => {
            write(writer, w);
            BLOCK
        }
        Err(Refused) => refused,
    }
}

// A request with its answer's 32 bytes, behind the entries that the block holds.
#[tactic(auto, unfolding(crate::specs::Calls::append_call))]
pub fn galitzaf_trace_append(
    writer: &mut [u64],
    block: &mut [u8],
    kind: u8,
    source: u16,
    address: u64,
    data: u32,
    answer: &[u8],
) -> u32
    ensures { (result, writer.new, block.new) ≡ append_call writer.old block.old kind source address «data» answer.now }
{
    let Some(w) = read(writer, block.len()) else {
        return BAD_TRACE;
    };
    if answer.len() != 32 {
        return BAD_ANSWER;
    }
    let request = asked(kind, source, address, data);
    let e = with_answer(request, answer);
    take_over(writer, append(w, block, e), BAD_ANSWER)
}

#[tactic(auto, unfolding(crate::specs::Calls::close_call))]
pub fn galitzaf_trace_close(writer: &mut [u64], block: &mut [u8]) -> u32
    ensures { (result, writer.new, block.new) ≡ close_call writer.old block.old }
{
    let Some(w) = read(writer, block.len()) else {
        return BAD_TRACE;
    };
    take_over(writer, close(w, block), BAD_TRACE)
}

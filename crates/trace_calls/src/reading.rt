// A reader of traces, and replay: a place is two numbers, the block's and the entry's in it.
ghost use Rattle.std.specs.Prelude.{◌≡◌, Some, None, IfSome, if◌then◌else◌, length};
ghost use Rattle.traced.specs.Entry.{entry_bytes};
ghost use Rattle.trace_calls.specs.Calls.{bad_cursor, cursor_in, place_numbers, check_call, next_call, replay_call};

use crate::{BAD_TRACE, DAMAGED, DIFFERS, END, ENTRY, SAME};
use packing::{BAD_ANSWER, OK};
use registers::Registers;
use replay::{Compared, replay};
use trace::{Cursor, Damaged, Traced, is_damaged, next};
use traced::encode;

#[tactic(auto, unfolding(crate::specs::Calls::bad_cursor))]
fn read(cursor: &[u64]) -> Option<Cursor>
    ensures value { result ≡ (if bad_cursor cursor.now then None else Some (cursor_in cursor.now)) }
    ensures two { IfSome result (λ c. length cursor.now ≡ 2) }
{
    let &[place, index] = cursor else {
        return None;
    };
    if 15 <= index {
        return None;
    }
    Some(Cursor {
        place,
        index: index as u8,
    })
}

fn write(cursor: &mut [u64], c: Cursor)
    requires { length cursor.old ≡ 2 }
    ensures { cursor.new ≡ place_numbers c }
{
    cursor.copy_from_slice(&[c.place, u64::from(c.index)]);
}

fn write_entry(entry: &mut [u8], e: Traced)
    requires { length entry.old ≡ 32 }
    ensures { entry.new ≡ entry_bytes e }
{
    encode(entry, 0, e);
}

// The block at a place of a trace.
pub fn galitzaf_trace_check(bytes: &[u8], place: u64) -> u32
    ensures { result ≡ check_call bytes.now place }
{
    if is_damaged(bytes, place) {
        DAMAGED
    } else {
        OK
    }
}

#[tactic(auto, unfolding(crate::specs::Calls::next_call))]
pub fn galitzaf_trace_next(bytes: &[u8], cursor: &mut [u64], entry: &mut [u8]) -> u32
    ensures { (result, cursor.new, entry.new) ≡ next_call bytes.now cursor.old entry.old }
{
    let Some(at) = read(cursor) else {
        return BAD_TRACE;
    };
    if entry.len() != 32 {
        return BAD_ANSWER;
    }
    let Some(step) = next(bytes, at) else {
        return END;
    };
    // The entry first, then the place behind it.
    let status = match step.found {
        Ok(e) => {
            write_entry(entry, e);
            ENTRY
        }
        Err(Damaged) => DAMAGED,
    };
    write(cursor, step.next);
    status
}

#[tactic(auto, unfolding(crate::specs::Calls::replay_call))]
pub fn replay_entry(
    registers: Registers,
    windows: &[u64],
    image: &mut [u8],
    bytes: &[u8],
    cursor: &mut [u64],
    entry: &mut [u8],
) -> u32
    ensures { (result, image.new, cursor.new, entry.new) ≡ replay_call registers windows.now image.old bytes.now cursor.old entry.old }
{
    let Some(at) = read(cursor) else {
        return BAD_TRACE;
    };
    if entry.len() != 32 {
        return BAD_ANSWER;
    }
    let Some(replayed) = replay(registers, windows, image, bytes, at) else {
        return END;
    };
    let status = match replayed.compared {
        Ok(Compared::Same) => SAME,
        Ok(Compared::Differs(e)) => {
            write_entry(entry, e);
            DIFFERS
        }
        Err(Damaged) => DAMAGED,
    };
    write(cursor, replayed.next);
    status
}

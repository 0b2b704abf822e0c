// A trace of requests and answers: its reader and its writer.
#![tactic(auto)]

ghost use Rattle.std.specs.Prelude.{◌≡◌, not, leb, ◌+◌, ◌*◌, ◌≤◌, ◌<◌, length, take, drop};
ghost use Rattle.blocks.specs.Block.{count, entries_well, well_laid};
ghost use Rattle.traced.specs.Decoded.{entry_well};
ghost use Rattle.trace.specs.Reader.{block_at, shut, behind, step_at};
ghost use Rattle.trace.specs.Answers.{reader_step_of};

mod writer;

use blocks::is_framed;
pub use traced::Traced;
use traced::decode;
pub use writer::{Refused, Writer, Wrote, append, close};

// Where a reader stands: a block's place in the trace, and an entry's in the block, both from 0.
#[derive(Clone, Copy, Debug, PartialEq, Eq)]
pub struct Cursor {
    pub place: u64,
    pub index: u8,
}

// A block that isn't laid out well, which hands out no entry.
#[derive(Clone, Copy, Debug, PartialEq, Eq)]
pub struct Damaged;

// What stands at the reader's place, and the reader's next place.
#[derive(Clone, Copy, Debug, PartialEq, Eq)]
pub struct Step {
    pub found: Result<Traced, Damaged>,
    pub next: Cursor,
}

fn is_entry(bytes: &[u8], at: u64) -> bool
    ensures { result ≡ entry_well (take 32 (drop at bytes.now)) }
{
    decode(bytes, at).is_some()
}

// So many entries from byte 8.
fn entries_well(block: &[u8], count: u8) -> bool
    requires { (8 + 32 * count ≤ length block.now) × (count ≤ 15) }
    ensures { result ≡ entries_well entry_well count (drop 8 block.now) }
{
    for i in 0..count {
        if !is_entry(block, 8 + 32 * u64::from(i)) {
            return false;
        }
    }
    true
}

fn is_well_laid(block: &[u8], place: u64) -> bool
    ensures { result ≡ well_laid entry_well block.now place }
{
    if !is_framed(block, place) {
        return false;
    }
    entries_well(block, block[1])
}

// The block at a place of a trace is damaged; a short last one is.
pub fn is_damaged(bytes: &[u8], place: u64) -> bool
    ensures { result ≡ not (well_laid entry_well (block_at bytes.now place) place) }
{
    if (bytes.len() / 512) as u64 <= place {
        return true;
    }
    let from = 512 * place as usize;
    let to = from + 512;
    !is_well_laid(&bytes[from..to], place)
}

// Nothing is handed out here.
fn is_shut(bytes: &[u8], place: u64, index: u8) -> bool
    ensures { result ≡ shut bytes.now place index }
{
    if 15 <= index {
        return true;
    }
    if (bytes.len() / 512) as u64 <= place {
        return true;
    }
    if index != 0 {
        return false;
    }
    is_damaged(bytes, place)
}

fn next_block(place: u64) -> Cursor
    requires { place < 0xFFFF_FFFF_FFFF_FFFF }
    ensures { result ≡ (record { place = place + 1; index = 0 }) }
{
    Cursor {
        place: place + 1,
        index: 0,
    }
}

// Behind an entry.
fn behind(bytes: &[u8], place: u64, index: u8) -> Cursor
    requires { (512 * place + 512 ≤ length bytes.now) × (index < 15) }
    ensures { result ≡ behind (count (block_at bytes.now place)) place index }
{
    let at = 512 * place as usize + 1;
    if index + 1 < bytes[at] {
        return Cursor {
            place,
            index: index + 1,
        };
    }
    next_block(place)
}

// The trace ends at or before this block.
fn is_past(bytes: &[u8], place: u64) -> bool
    ensures { result ≡ leb (length bytes.now) (512 * place) }
{
    let whole = (bytes.len() / 512) as u64;
    (whole < place) | ((whole == place) & (bytes.len() % 512 == 0))
}

// The next entry in order, or the next damaged block; nothing at the end of the trace.
pub fn next(bytes: &[u8], cursor: Cursor) -> Option<Step>
    ensures { reader_step_of result ≡ step_at bytes.now cursor.place cursor.index }
{
    let place = cursor.place;
    let index = cursor.index;
    if is_past(bytes, place) {
        return None;
    }
    let damaged = Step {
        found: Err(Damaged),
        next: next_block(place),
    };
    if is_shut(bytes, place, index) {
        return Some(damaged);
    }
    let at = 512 * place + 8 + 32 * index as u64;
    let Some(e) = decode(bytes, at) else {
        return Some(damaged);
    };
    Some(Step {
        found: Ok(e),
        next: behind(bytes, place, index),
    })
}

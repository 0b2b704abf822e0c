// A writer of traces. Its state is handed in and out by value; the block that is being filled is a lent buffer.
ghost use Rattle.std.specs.Prelude.{◌≡◌};
ghost use Rattle.trace.specs.Writer.{unfit, appending, closing};
ghost use Rattle.trace.specs.Answers.{wrote_of};

use blocks::finish;
use traced::{Traced, encode, is_well};

// So many entries stand in the buffer, and the number of their block. A trace begins with 0 and 0.
#[derive(Clone, Copy, Debug, PartialEq, Eq)]
pub struct Writer {
    pub count: u8,
    pub number: u64,
}

// A buffer that isn't 512 bytes, an entry that isn't laid out well, or a writer of no trace: nothing was done.
#[derive(Clone, Copy, Debug, PartialEq, Eq)]
pub struct Refused;

// The writer to go on with.
#[derive(Clone, Copy, Debug, PartialEq, Eq)]
pub enum Wrote {
    // There is nothing to take from the buffer yet.
    Kept(Writer),
    // The buffer holds a block, to be taken before the next call.
    Full(Writer),
}

fn is_unfit(w: Writer, len: usize) -> bool
    ensures { result ≡ unfit w len }
{
    !(len == 512) | (15 <= w.count) | (0x1_0000_0000_0000 <= w.number)
}

// An entry behind those that the buffer holds.
pub fn append(w: Writer, buffer: &mut [u8], e: Traced) -> Result<Wrote, Refused>
    ensures { (wrote_of result, buffer.new) ≡ appending w buffer.old e }
{
    if is_unfit(w, buffer.len()) | !is_well(e) {
        return Err(Refused);
    }
    encode(buffer, 8 + 32 * w.count as u64, e);
    if w.count < 14 {
        return Ok(Wrote::Kept(Writer {
            count: w.count + 1,
            ..w
        }));
    }
    finish(buffer, w.number, 15);
    Ok(Wrote::Full(Writer {
        count: 0,
        number: w.number + 1,
    }))
}

// The last block, which may have fewer than 15 entries; there is none where no entry waits.
pub fn close(w: Writer, buffer: &mut [u8]) -> Result<Wrote, Refused>
    ensures { (wrote_of result, buffer.new) ≡ closing w buffer.old }
{
    if is_unfit(w, buffer.len()) {
        return Err(Refused);
    }
    if w.count == 0 {
        return Ok(Wrote::Kept(w));
    }
    finish(buffer, w.number, w.count);
    Ok(Wrote::Full(Writer {
        count: 0,
        number: w.number + 1,
    }))
}

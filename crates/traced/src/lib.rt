// An entry of the trace: a request and its answer in 32 bytes.
#![tactic(auto)]

ghost use Rattle.std.specs.Prelude.{◌≡◌, ◌++◌, ◌+◌, ◌≤◌, length, take, drop, leb};
ghost use Rattle.image.specs.Bytes.{bytes_of};
ghost use Rattle.std.specs.Prelude.{if◌then◌else◌};
ghost use Rattle.traced.specs.Decoded.{decoded};
ghost use Rattle.traced.specs.Answers.{decoded_of};
ghost use Rattle.traced.specs.Entry.{head_bytes, entry_bytes, traced_in};

mod well;

use image::{field, store8, word_or_zero};
pub use well::is_well;

// What each number says is told with the test that an entry is laid out well. A field that a kind and an answer
// don't use is 0. Kind and answer are numbers: bytes that are no entry are read and judged too, and C hands in any kind.
#[derive(Clone, Copy, Debug, PartialEq, Eq)]
pub struct Traced {
    pub kind: u8,
    pub answer: u8,
    pub number: u8,
    pub flags: u8,
    pub source: u16,
    pub vector: u8,
    pub posted: u8,
    pub address: u64,
    pub data: u32,
    pub destination: u32,
    pub value: u64,
}

// Bytes 7:0, from the last field down.
fn head(e: Traced) -> u64
    ensures { bytes_of 8 result ≡ head_bytes e }
{
    e.kind as u64
        + e.answer as u64 * 0x100
        + e.number as u64 * 0x1_0000
        + e.flags as u64 * 0x100_0000
        + e.source as u64 * 0x1_0000_0000
        + e.vector as u64 * 0x1_0000_0000_0000
        + e.posted as u64 * 0x100_0000_0000_0000
}

// Bytes 23:16.
fn message(e: Traced) -> u64
    ensures { bytes_of 8 result ≡ bytes_of 4 e.«data» ++ bytes_of 4 e.destination }
{
    e.data as u64 + e.destination as u64 * 0x1_0000_0000
}

// An entry's 32 bytes laid into a buffer; nothing is written where it doesn't hold them all.
pub fn encode(buffer: &mut [u8], at: u64, e: Traced)
    ensures { buffer.new ≡ (if leb (at + 32) (length buffer.old) then take at buffer.old ++ entry_bytes e ++ drop (at + 32) buffer.old else buffer.old) }
{
    if buffer.len() < 32 {
        return;
    }
    if ((buffer.len() - 32) as u64) < at {
        return;
    }
    store8(buffer, at, head(e));
    store8(buffer, at + 8, e.address);
    store8(buffer, at + 16, message(e));
    store8(buffer, at + 24, e.value);
}

fn fields(bytes: &[u8], at: u64) -> Traced
    requires { at + 32 ≤ length bytes.now }
    ensures { result ≡ traced_in (take 32 (drop at bytes.now)) }
{
    let head = word_or_zero(bytes, at);
    let address = word_or_zero(bytes, at + 8);
    let message = word_or_zero(bytes, at + 16);
    let value = word_or_zero(bytes, at + 24);
    Traced {
        kind: field(head, 7, 0) as u8,
        answer: field(head, 15, 8) as u8,
        number: field(head, 23, 16) as u8,
        flags: field(head, 31, 24) as u8,
        source: field(head, 47, 32) as u16,
        vector: field(head, 55, 48) as u8,
        posted: field(head, 63, 56) as u8,
        address,
        data: field(message, 31, 0) as u32,
        destination: field(message, 63, 32) as u32,
        value,
    }
}

// The entry in the 32 bytes from an index, where it is laid out well.
pub fn decode(bytes: &[u8], at: u64) -> Option<Traced>
    ensures { decoded_of result ≡ decoded (take 32 (drop at bytes.now)) }
{
    if bytes.len() < 32 {
        return None;
    }
    if ((bytes.len() - 32) as u64) < at {
        return None;
    }
    let e = fields(bytes, at);
    is_well(e).then_some(e)
}

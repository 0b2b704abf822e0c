// Blocks of a trace, each byte of each changed to every other value: how many of them the reader names as damaged.
#![tactic(auto)]

ghost use Rattle.std.specs.Prelude.{◌<◌, ◌≤◌};

use std::io;
use trace::{Refused, Traced, Writer, Wrote, append, close, is_damaged};

// A read that is granted.
fn granted_read() -> Traced {
    Traced {
        kind: 1,
        answer: 3,
        number: 0,
        flags: 0,
        source: 0x0310,
        vector: 0,
        posted: 0,
        address: 0x4020_1ABC,
        data: 0,
        destination: 0,
        value: 0x1234_5ABC,
    }
}

// That read, a fault with its entry's address, a remapped interrupt, a post with a notification.
fn entry(i: u8) -> Traced {
    let read = granted_read();
    match i % 4 {
        0 => read,
        1 => Traced {
            kind: 2,
            answer: 2,
            number: 5,
            flags: 3,
            value: 0x5008,
            ..read
        },
        2 => Traced {
            kind: 3,
            answer: 5,
            flags: 0x3F,
            vector: 0x41,
            address: 0xFEE0_0000,
            data: 0xFFFF_FFFF,
            destination: 0xFFFF_FFFF,
            value: 0,
            ..read
        },
        _ => Traced {
            kind: 3,
            answer: 7,
            vector: 0xF2,
            posted: 0xFF,
            address: 0xFEE0_0010,
            destination: 0x0000_0300,
            value: 0xFFFF_FFFF_FFFF_FFC0,
            ..read
        },
    }
}

// A block of n entries with a number.
fn block(n: u8, number: u64) -> [u8; 512] {
    let mut buffer = [0xA5u8; 512];
    let mut w = Writer { count: 0, number };
    for i in 0..n {
        match append(w, &mut buffer, entry(i)) {
            Ok(Wrote::Kept(next) | Wrote::Full(next)) => w = next,
            Err(Refused) => return buffer,
        }
    }
    let _ = close(w, &mut buffer);
    buffer
}

// How often a block is named where its byte at an index has another value.
fn named(start: [u8; 512], at: usize) -> u64
    requires { at < 512 }
    ensures { result ≤ 255 }
{
    let mut block = start;
    let mut count = 0;
    let was = block[at];
    for d in 1..=255u8 {
        block[at] = was ^ d;
        if is_damaged(&block, 0) {
            count += 1;
        }
    }
    count
}

fn try_all(rt: &impl Print, name: &str, block: [u8; 512]) -> io::Result<()> {
    if is_damaged(&block, 0) {
        return println!(rt; "{name}: damaged as written");
    }
    let mut count = 0;
    for at in 0..512usize {
        count += named(block, at);
    }
    println!(rt; "{name}: of 130560 changed by one byte {count} are named")
}

fn main(rt: HostRuntime) -> io::Result<()> {
    try_all(&rt, "1 entry", block(1, 0))?;
    try_all(&rt, "4 entries", block(4, 0))?;
    try_all(&rt, "14 entries", block(14, 0))?;
    try_all(&rt, "15 entries", block(15, 0))
}

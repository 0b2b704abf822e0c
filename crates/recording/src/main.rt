// Many recorder calls over 8 and over 256 slots, made by a small generator: faults of many kinds, clears, and calls that are
// refused. What the calls answered is counted and printed, with the records that stand in the buffer at the end.
#![tactic(auto)]

use faults::{Fault, Reason, Recorder, RecorderAnswer};
use registers::SourceId;
use std::{fmt, io};

const CALLS: u32 = 10_000;

#[derive(Clone, Copy, Default)]
struct Tally {
    written: u64,
    overflowed: u64,
    dropped: u64,
    silenced: u64,
    cleared: u64,
    cleared_in_vain: u64,
    overflow_cleared: u64,
    overflow_cleared_in_vain: u64,
    refused: u64,
}

impl Tally {
    fn count(&mut self, answer: RecorderAnswer) {
        let count = match answer {
            RecorderAnswer::Written => &mut self.written,
            RecorderAnswer::Overflowed => &mut self.overflowed,
            RecorderAnswer::Dropped => &mut self.dropped,
            RecorderAnswer::NotRecordable => &mut self.silenced,
            RecorderAnswer::SlotCleared => &mut self.cleared,
            RecorderAnswer::SlotClear => &mut self.cleared_in_vain,
            RecorderAnswer::OverflowCleared => &mut self.overflow_cleared,
            RecorderAnswer::OverflowClear => &mut self.overflow_cleared_in_vain,
            RecorderAnswer::Refused => &mut self.refused,
        };
        *count = count.wrapping_add(1);
    }
}

impl fmt::Display for Tally {
    fn fmt<W: fmt::Write>(&self, f: &mut fmt::Formatter<W>) -> fmt::Result {
        writeln!(f, "written {}", self.written)?;
        writeln!(f, "overflowed {}", self.overflowed)?;
        writeln!(f, "dropped {}", self.dropped)?;
        writeln!(f, "silenced by FPD {}", self.silenced)?;
        writeln!(f, "cleared {}", self.cleared)?;
        writeln!(f, "cleared in vain {}", self.cleared_in_vain)?;
        writeln!(f, "overflow cleared {}", self.overflow_cleared)?;
        writeln!(
            f,
            "overflow cleared in vain {}",
            self.overflow_cleared_in_vain
        )?;
        write!(f, "refused {}", self.refused)
    }
}

// Marsaglia's xorshift.
fn random(x: u64) -> u64 {
    let a = x ^ (x << 13);
    let b = a ^ (a >> 7);
    b ^ (b << 17)
}

fn memory_reason(n: u64) -> Reason {
    match n % 4 {
        0 => Reason::RootNotPresent,
        1 => Reason::ContextInvalid,
        2 => Reason::WriteDenied,
        _ => Reason::ReadDenied,
    }
}

fn interrupt_reason(n: u64) -> Reason {
    match n % 4 {
        0 => Reason::RequestReserved,
        1 => Reason::IndexOutOfRange,
        2 => Reason::IrteNotPresent,
        _ => Reason::SourceRejected,
    }
}

fn fault_of(x: u64) -> Fault {
    let source = SourceId::from((x / 64 % 65536) as u16);
    let fpd = x % 4 == 0;
    if x / 4 % 2 == 0 {
        faults::memory_fault(memory_reason(x / 16), fpd, source, x, x / 8 % 2 == 0)
    } else {
        let index = (x % 131_072) as u32;
        faults::interrupt_fault(interrupt_reason(x / 16), fpd, source, index)
    }
}

// A slot, which may be the one above the last.
fn slot_of(x: u64, len: usize) -> u8 {
    let slots = len as u64 / 16;
    (x % (slots + 1) % 256) as u8
}

// One call, as the number says: a fault, a clear of a slot, a clear of overflow, or a fault for a buffer that is too short.
fn one_call(buffer: &mut [u8], recorder: &mut Recorder, x: u64) -> RecorderAnswer {
    let rest = x / 16;
    match x % 16 {
        0..=8 => recorder.record(buffer, faults::record_of(fault_of(rest))),
        9..=13 => recorder.clear_slot(buffer, slot_of(rest, buffer.len())),
        14 => recorder.clear_overflow(buffer),
        _ => recorder.record(&mut [0u8; 112], faults::record_of(fault_of(rest))),
    }
}

fn run_calls(buffer: &mut [u8]) -> Tally {
    let mut tally = Tally::default();
    let mut recorder = Recorder {
        next: 0,
        overflow: false,
    };
    let mut x = 0x2545_F491_4F6C_DD1D;
    for _ in 0..CALLS {
        x = random(x);
        tally.count(one_call(buffer, &mut recorder, x));
    }
    tally
}

// How many records have bit 127 set.
fn standing(buffer: &[u8]) -> usize {
    buffer
        .chunks_exact(16)
        .filter(|record| 128 <= record[15])
        .count()
}

fn report(rt: &impl Print, buffer: &mut [u8]) -> io::Result<()> {
    println!(rt; "slots {}", faults::slot_count(buffer.len()))?;
    println!(rt; "calls {CALLS}")?;
    println!(rt; "{}", run_calls(buffer))?;
    println!(rt; "standing {}", standing(buffer))
}

fn main(rt: HostRuntime) -> io::Result<()> {
    report(&rt, &mut [0u8; 128])?;
    report(&rt, &mut [0u8; 4096])
}

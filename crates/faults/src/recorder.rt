// The recorder: records in a lent buffer, whose length gives the number of slots, and its small state.
ghost use Rattle.std.specs.Prelude.{◌≡◌, ◌%◌, ◌+◌, ◌^◌, ◌<◌, ◌≤◌, [], ◌∷◌};
ghost use Rattle.image.specs.Bytes.{spell};
ghost use Rattle.faults.specs.Answers.{left_by, answer_of, fault_of};
ghost use Rattle.faults.specs.Recorder.{recording, clearing, clearing_overflow};
ghost use Rattle.faults.specs.Slots.{slots_of, slots_in};

use crate::fault::Fault;
use crate::slots::{clear_record, is_standing, write_record};

#[derive(Clone, Copy, Debug, PartialEq, Eq)]
pub struct Recorder {
    // The slot that the next record goes to.
    pub next: u8,
    pub overflow: bool,
}

// What became of a call. A clear also tells whether a record stood there, or overflow was set. An enum and no Result: C gets a refusal as one
// of these numbers.
#[derive(Clone, Copy, Debug, PartialEq, Eq)]
pub enum RecorderAnswer {
    // Refusal 3.
    Refused = 0x03,
    NotRecordable = 0x11,
    Dropped = 0x12,
    Overflowed = 0x13,
    Written = 0x14,
    SlotClear = 0x20,
    SlotCleared = 0x21,
    OverflowClear = 0x30,
    OverflowCleared = 0x31,
}

impl RecorderAnswer {
    // The refusal's own number; else the C interface's.
    pub fn number(self) -> u32
        ensures { result ≡ answer_of self }
    {
        self as u32
    }
}

// What the recorder is handed of a fault: whether it may be recorded, and its record.
#[derive(Clone, Copy, Debug, PartialEq, Eq)]
pub struct FaultRecord {
    pub recordable: bool,
    pub low: u64,
    pub high: u64,
}

pub fn record_of(fault: Fault) -> FaultRecord
    ensures { (result.recordable ≡ fault.recordable) × (spell (result.low ∷ result.high ∷ []) ≡ (fault_of fault).contents) }
{
    FaultRecord {
        recordable: fault.recordable,
        low: fault.low,
        high: fault.high,
    }
}

// The slots of a buffer by its length: 0 where it isn't one of these, and no Option, since one comparison with a slot then refuses both.
#[tactic(auto, unfolding(crate::specs::Slots::slots_of))]
pub fn slot_count(len: usize) -> usize
    ensures { result ≡ slots_of len }
{
    match len {
        128 => 8,
        256 => 16,
        512 => 32,
        1024 => 64,
        2048 => 128,
        4096 => 256,
        _ => 0,
    }
}

// The slot after one; the first after the last.
fn slot_after(next: u8, slots: usize) -> u8
    requires { (next < slots) × (slots ≤ 256) }
    ensures { result ≡ (next + 1) % slots }
{
    ((next as usize + 1) % slots) as u8
}

// A record's high word, bit 127 set whatever was handed in.
fn with_bit_127(high: u64) -> u64
    ensures { result ≡ high % 2 ^ 63 + 2 ^ 63 }
{
    high % 0x8000_0000_0000_0000 + 0x8000_0000_0000_0000
}

// The recorder's calls, its state and the records' buffer changed in place.
impl Recorder {
    // Hands it a fault's record.
    #[tactic(auto, unfolding(crate::specs::Recorder::recording), using(crate::proofs::Buffer::marked))]
    pub fn record(&mut self, buffer: &mut [u8], fault: FaultRecord) -> RecorderAnswer
        ensures { left_by result self.new buffer.new ≡ recording (slots_in buffer.old) buffer.old self.old.next self.old.overflow fault.recordable (spell (fault.low ∷ fault.high ∷ [])) }
    {
        let slots = slot_count(buffer.len());
        let slot = self.next as usize;
        if slots <= slot {
            return RecorderAnswer::Refused;
        }
        if !fault.recordable {
            return RecorderAnswer::NotRecordable;
        }
        if self.overflow {
            return RecorderAnswer::Dropped;
        }
        if is_standing(buffer, slot) {
            self.overflow = true;
            return RecorderAnswer::Overflowed;
        }
        write_record(buffer, slot, fault.low, with_bit_127(fault.high));
        self.next = slot_after(self.next, slots);
        RecorderAnswer::Written
    }

    // Clears a slot's bit 127.
    #[tactic(auto, unfolding(crate::specs::Recorder::clearing), using(crate::proofs::Recording::in_reach))]
    pub fn clear_slot(&mut self, buffer: &mut [u8], slot: u8) -> RecorderAnswer
        ensures { left_by result self.new buffer.new ≡ clearing (slots_in buffer.old) buffer.old self.old.next self.old.overflow slot }
    {
        let slots = slot_count(buffer.len());
        if (slots <= self.next as usize) | (slots <= slot as usize) {
            return RecorderAnswer::Refused;
        }
        if is_standing(buffer, slot as usize) {
            clear_record(buffer, slot as usize);
            return RecorderAnswer::SlotCleared;
        }
        RecorderAnswer::SlotClear
    }

    // Clears the overflow flag.
    #[tactic(auto, unfolding(crate::specs::Recorder::clearing_overflow))]
    pub fn clear_overflow(&mut self, buffer: &[u8]) -> RecorderAnswer
        ensures { left_by result self.new buffer.now ≡ clearing_overflow (slots_in buffer.now) buffer.now self.old.next self.old.overflow }
    {
        if slot_count(buffer.len()) <= self.next as usize {
            return RecorderAnswer::Refused;
        }
        if self.overflow {
            self.overflow = false;
            return RecorderAnswer::OverflowCleared;
        }
        RecorderAnswer::OverflowClear
    }
}

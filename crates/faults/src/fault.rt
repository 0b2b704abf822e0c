// A blocked request's answer, with its record.
ghost use Rattle.std.specs.Prelude.{◌≡◌, ◌+◌, ◌^◌, ◌<◌};
ghost use Rattle.faults.specs.Answers.{fault_of, high_word};
ghost use Rattle.faults.specs.Reason.{number_of};
ghost use Rattle.faults.specs.Record.{within, silenced, recordable, index_field, memory_fault, translation_fault, interrupt_fault};

use crate::reason::Reason;
use registers::{Page4K, SourceId};

// The record's 128 bits are two words, bit 64 the lowest of high. They come first: in an answer that holds a fault or an address, no word is
// then moved that holds parts of two fields.
#[derive(Clone, Copy, Debug, PartialEq, Eq)]
pub struct Fault {
    pub low: u64,
    pub high: u64,
    pub reason: Reason,
    pub recordable: bool,
}

// For the numbers of reasons.
pub fn lies_within(low: u8, high: u8, n: u8) -> bool
    ensures { result ≡ within low high n }
{
    (low <= n) & (n <= high)
}

fn is_silenced(number: u8) -> bool
    ensures { result ≡ silenced number }
{
    lies_within(0x02, 0x07, number)
        | lies_within(0x0B, 0x0D, number)
        | (number == 0x22)
        | (number == 0x24)
        | lies_within(0x26, 0x28, number)
}

// A reason that FPD doesn't silence is always recordable. Without FPD, the usual case, none is looked at.
fn may_record(fpd: bool, number: u8) -> bool
    ensures { result ≡ recordable fpd number }
{
    if !fpd {
        return true;
    }
    !is_silenced(number)
}

// Bits 127:64 of a record. It leaves room for what is added in higher bits.
pub fn high_word(source: u16, number: u8, read: bool) -> u64
    ensures { (result ≡ high_word source number read) × (result < 2 ^ 63 + 2 ^ 62 + 2 ^ 40) }
{
    let word = source as u64 + number as u64 * 0x1_0000_0000 + 0x8000_0000_0000_0000;
    if read {
        word + 0x4000_0000_0000_0000
    } else {
        word
    }
}

pub fn memory_fault(reason: Reason, fpd: bool, source: SourceId, address: u64, write: bool) -> Fault
    ensures { fault_of result ≡ memory_fault (number_of reason) fpd source.id address write }
{
    let number = reason.number();
    Fault {
        reason,
        recordable: may_record(fpd, number),
        low: address / Page4K::SPAN * Page4K::SPAN,
        high: high_word(source.id, number, !write),
    }
}

// A translation request's record is a read's, with AT 01b.
pub fn translation_fault(reason: Reason, fpd: bool, source: SourceId, address: u64) -> Fault
    ensures { fault_of result ≡ translation_fault (number_of reason) fpd source.id address }
{
    let number = reason.number();
    Fault {
        reason,
        recordable: may_record(fpd, number),
        low: address / Page4K::SPAN * Page4K::SPAN,
        high: high_word(source.id, number, true) + 0x1000_0000_0000_0000,
    }
}

// The index of a record: none for a request without one.
fn recorded_index(number: u8, index: u32) -> u64
    ensures { (result ≡ index_field number index) × (result < 2 ^ 16) }
{
    if (number == 0x20) | (number == 0x25) {
        0
    } else if 65535 < index {
        65535
    } else {
        index as u64
    }
}

pub fn interrupt_fault(reason: Reason, fpd: bool, source: SourceId, index: u32) -> Fault
    ensures { fault_of result ≡ interrupt_fault (number_of reason) fpd source.id index }
{
    let number = reason.number();
    Fault {
        reason,
        recordable: may_record(fpd, number),
        low: recorded_index(number, index) * 0x1_0000_0000_0000,
        high: high_word(source.id, number, false),
    }
}

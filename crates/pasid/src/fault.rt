// A blocked request's answer, with its record.
ghost use Rattle.std.specs.Prelude.{◌≡◌, ◌+◌, ◌^◌, ◌<◌};
ghost use Rattle.pasid.specs.Answers.{fault_of};
ghost use Rattle.pasid.specs.Reason.{number_of};
ghost use Rattle.pasid.specs.Record.{recordable, pasid_word, scalable_fault};

use crate::Pasid;
use crate::reason::ScalableReason;
use faults::{high_word, lies_within};
use registers::{Page4K, SourceId};

// The record's 128 bits are two words, bit 64 the lowest of high.
#[derive(Clone, Copy)]
pub struct ScalableFault {
    pub reason: ScalableReason,
    pub recordable: bool,
    pub low: u64,
    pub high: u64,
}

// FPD silences neither faults of the root entry nor 40h, 50h and 58h.
fn may_record(fpd: bool, number: u8) -> bool
    ensures { result ≡ recordable fpd number }
{
    !(fpd
        & (lies_within(0x41, 0x47, number)
            | lies_within(0x51, 0x52, number)
            | lies_within(0x59, 0x5D, number)
            | lies_within(0x70, 0x86, number)))
}

// PASID value in 123:104, PASID present in 95: bits 59:40 and 31 of the upper word.
#[tactic(auto, unfolding(crate::specs::Record::pasid_word, image::specs::Bits::bits))]
fn pasid_word(pasid: Pasid) -> u64
    ensures { (result ≡ pasid_word pasid) × (result < 2 ^ 61) }
{
    if pasid.present {
        return (pasid.value % 0x10_0000) as u64 * 0x100_0000_0000 + 0x8000_0000;
    }
    0
}

pub fn scalable_fault(
    reason: ScalableReason,
    fpd: bool,
    source: SourceId,
    address: u64,
    write: bool,
    pasid: Pasid,
) -> ScalableFault
    ensures { fault_of result ≡ scalable_fault (number_of reason) fpd source.id address write pasid }
{
    let number = reason.number();
    ScalableFault {
        reason,
        recordable: may_record(fpd, number),
        low: address / Page4K::SPAN * Page4K::SPAN,
        high: high_word(source.id, number, !write) + pasid_word(pasid),
    }
}

// Requests in scalable mode, for C: a crate of its own, so that its object is one of its own, which a unit in legacy mode doesn't link.
#![tactic(auto)]

ghost use Rattle.std.specs.Prelude.{false, ◌≡◌};
ghost use Rattle.packing.specs.Answer.{bytes_of_packed, memory_bytes};
ghost use Rattle.packing.specs.Registers.{malformed_registers};
ghost use Rattle.scalable.specs.Answers.{outcome_of, entry_of};
ghost use Rattle.galitzaf_scalable.specs.Scalable.{unpacked_scalable, scalable_request_of, scalable_call};

use faults::FaultRecord;
use image::bit;
use packing::{
    BAD_ANSWER, BAD_KIND, BAD_REGISTERS, BAD_WINDOWS, OK, Packed, malformed, pack_blocked,
    pack_granted, pack_refusal, store, unpack,
};
use pasid::{Pasid, ScalableRegisters};
use registers::SourceId;
use scalable::{ScalableAnswer, ScalableRequest, scalable_request};

#[tactic(auto, unfolding(crate::specs::Scalable::unpacked_scalable))]
fn unpack_scalable(registers: &[u8], capabilities: u32) -> ScalableRegisters
    requires { malformed_registers registers.now ≡ false }
    ensures { result ≡ unpacked_scalable registers.now capabilities }
{
    let has = capabilities as u64;
    ScalableRegisters {
        base: unpack(registers),
        flts: bit(has, 0),
        slts: bit(has, 1),
        nest: bit(has, 2),
        pt: bit(has, 3),
        fl5lp: bit(has, 4),
        fl1gp: bit(has, 5),
        slads: bit(has, 6),
        eafs: bit(has, 7),
        srs: bit(has, 8),
        smpwc: bit(has, 9),
    }
}

#[tactic(auto, unfolding(crate::specs::Scalable::scalable_request_of))]
fn request_of(source: u16, address: u64, kind: u8, pasid: u32) -> ScalableRequest
    ensures { result ≡ scalable_request_of source address kind pasid }
{
    let what = kind as u64;
    ScalableRequest {
        source: SourceId::from(source),
        address,
        write: bit(what, 0),
        pasid: Pasid {
            present: bit(what, 1),
            value: pasid,
        },
    }
}

fn pack_scalable(answer: ScalableAnswer) -> Packed
    ensures { bytes_of_packed result ≡ memory_bytes (outcome_of answer) (entry_of answer) }
{
    match answer {
        ScalableAnswer::Granted(address) => pack_granted(address),
        ScalableAnswer::Blocked(fault, entry) => {
            let reason = fault.reason;
            let told = FaultRecord {
                recordable: fault.recordable,
                low: fault.low,
                high: fault.high,
            };
            pack_blocked(reason.number(), told, entry)
        }
        ScalableAnswer::Refused(number) => pack_refusal(number),
    }
}

#[unsafe(no_mangle)]
pub extern "C" fn galitzaf_scalable_request(
    registers: &[u8],
    capabilities: u32,
    windows: &[u64],
    image: &mut [u8],
    source: u16,
    address: u64,
    kind: u8,
    pasid: u32,
    answer: &mut [u8],
) -> u32
    ensures { (result, image.new, answer.new) ≡ scalable_call registers.now capabilities windows.now image.old source address kind pasid answer.old }
{
    if malformed(registers) {
        return BAD_REGISTERS;
    }
    if 0x400 <= capabilities {
        return BAD_REGISTERS;
    }
    if windows.len() % 3 != 0 {
        return BAD_WINDOWS;
    }
    if answer.len() != 32 {
        return BAD_ANSWER;
    }
    if 3 < kind {
        return BAD_KIND;
    }
    let unit = unpack_scalable(registers, capabilities);
    let request = request_of(source, address, kind, pasid);
    store(
        answer,
        pack_scalable(scalable_request(unit, windows, image, request)),
    );
    OK
}

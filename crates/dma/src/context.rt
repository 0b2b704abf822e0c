// The context entry: 16 bytes for each device and function of a bus.
ghost use Rattle.std.specs.Prelude.{◌≡◌, ◌<◌};
ghost use Rattle.image.specs.Bits.{bits};
ghost use Rattle.image.specs.Answers.{number16};
ghost use Rattle.dma.specs.Context.{address_width, translation_type, width_supported, context_reserved, context_invalid, context_of, fault_processing_disabled};
ghost use Rattle.image.specs.Place.{entry_at};
ghost use Rattle.dma.specs.Answers.{lookup_of, lookup_place};
ghost use Rattle.dma.specs.Lookup.{checked_context};

use crate::entry::{present, table_address};
use faults::{Reason, Stop};
use image::{Entry, Entry16};
use registers::{Registers, at_or_above_power};

// What a context entry says.
#[derive(Clone, Copy)]
pub struct Context {
    // The top page table's address.
    pub top: u64,
    // Of page tables: 3, 4 or 5 where AW is 1, 2 or 3.
    pub levels: u32,
    // TT: 0 and 1 translate, 2 passes through.
    pub translation_type: u8,
    pub fpd: bool,
    // No answer depends on it.
    pub domain: u16,
}

// A source's context, with the host address of its entry.
#[derive(Clone, Copy)]
pub struct FoundContext {
    pub context: Context,
    pub at: u64,
}

// AW, bits 66:64.
#[tactic(auto, using(image::proofs::Fields::fits))]
fn address_width(e: Entry16) -> u64
    ensures { (result ≡ address_width (number16 e)) × (result < 8) }
{
    e.bits(66, 64)
}

// TT, bits 3:2.
#[tactic(auto, using(image::proofs::Fields::fits))]
fn translation_type(e: Entry16) -> u64
    ensures { (result ≡ translation_type (number16 e)) × (result < 4) }
{
    e.bits(3, 2)
}

// Bits 87:72.
#[tactic(auto, using(image::proofs::Fields::fits))]
fn domain(e: Entry16) -> u64
    ensures { (result ≡ bits (number16 e) 87 72) × (result < 65536) }
{
    e.bits(87, 72)
}

pub fn width_supported(registers: Registers, aw: u64) -> bool
    ensures { result ≡ width_supported registers aw }
{
    // All three are read first: a load chosen by AW would keep the registers in memory.
    let levels3 = registers.levels3;
    let levels4 = registers.levels4;
    let levels5 = registers.levels5;
    if aw == 1 {
        return levels3;
    }
    if aw == 2 {
        return levels4;
    }
    if aw == 3 {
        return levels5;
    }
    false
}

// Bits 11:4, 71, 127:88 and 63:HAW.
fn context_reserved(haw: u8, e: Entry16) -> bool
    ensures { result ≡ context_reserved haw (number16 e) }
{
    e.any_set(11, 4) | e.bit(71) | e.any_set(127, 88) | at_or_above_power(e.low, haw as u32)
}

#[tactic(auto, unfolding(crate::specs::Context::context_invalid))]
fn context_invalid(registers: Registers, e: Entry16) -> bool
    ensures { result ≡ context_invalid registers (number16 e) }
{
    !width_supported(registers, address_width(e)) | (translation_type(e) == 3)
}

// FPD, bit 1, read whether the entry is present or not.
fn fault_processing_disabled(e: Entry16) -> bool
    ensures { result ≡ fault_processing_disabled (number16 e) }
{
    e.bit(1)
}

fn context_of(e: Entry16) -> Context
    ensures { result ≡ context_of (number16 e) }
{
    Context {
        top: table_address(e),
        levels: address_width(e) as u32 + 2,
        translation_type: translation_type(e) as u8,
        fpd: fault_processing_disabled(e),
        domain: domain(e) as u16,
    }
}

#[tactic(auto, unfolding(crate::specs::Context::context_check))]
pub(crate) fn context_check(
    registers: Registers,
    at: u64,
    e: Entry16,
) -> Result<FoundContext, Stop<Reason>>
    ensures result_value { lookup_of result ≡ checked_context registers (number16 e) }
    ensures result_value_2 { lookup_place result ≡ entry_at at }
{
    let fpd = fault_processing_disabled(e);
    if !present(e) {
        return Err(Stop {
            reason: Reason::ContextNotPresent,
            fpd,
            at,
        });
    }
    if context_reserved(registers.haw, e) {
        return Err(Stop {
            reason: Reason::ContextReserved,
            fpd,
            at,
        });
    }
    if context_invalid(registers, e) {
        return Err(Stop {
            reason: Reason::ContextInvalid,
            fpd,
            at,
        });
    }
    Ok(FoundContext {
        context: context_of(e),
        at,
    })
}

// The PASID table entry, 64 bytes: its reserved bits and what it says.
ghost use Rattle.std.specs.Prelude.{◌≡◌, ◌<◌};
ghost use Rattle.image.specs.Bits.{bits, any_set};
ghost use Rattle.image.specs.Answers.{number64};
ghost use Rattle.pasid.specs.Table.{feature_reserved, pointers_reserved, table_reserved, pasid_entry_of};

use crate::ScalableRegisters;
use crate::reason::ScalableReason;
use faults::Stop;
use image::{Entry, Entry64, in_place};
use registers::at_or_above_power;

// What a PASID table entry says of a request.
#[derive(Clone, Copy)]
pub struct PasidEntry {
    // PGTT: 1 first level, 2 second level, 3 nested, 4 pass-through. A number: `pasid_entry_of` says bits 8:6, whatever they are.
    pub kind: u8,
    // The second level's top table, and its levels: 3, 4 or 5 where AW is 1, 2 or 3.
    pub second_top: u64,
    pub second_levels: u32,
    // The first level's top table, and its levels: 4 or 5 where FLPM is 0 or 1.
    pub first_top: u64,
    pub first_levels: u32,
    pub slade: bool,
    pub pwsnp: bool,
    pub wpe: bool,
    pub nxe: bool,
    pub eafe: bool,
    // The request is privileged.
    pub privileged: bool,
    // Of the context, directory or table entry.
    pub fpd: bool,
}

impl PasidEntry {
    // A walk that goes by this entry ends at the one at a host address.
    pub fn stop(self, reason: ScalableReason, at: u64) -> Stop<ScalableReason>
        ensures { result ≡ record { reason = reason; fpd = self.fpd; at = at } }
    {
        Stop {
            reason,
            fpd: self.fpd,
            at,
        }
    }
}

// Bits 511:192.
fn upper_set(e: Entry64) -> bool
    ensures { result ≡ any_set (number64 e) 511 192 }
{
    (e.w3 != 0) | ((e.w4 != 0) | ((e.w5 != 0) | ((e.w6 != 0) | (e.w7 != 0))))
}

// SLADE, SRE and EAFE are reserved where the unit hasn't what they switch on.
#[tactic(auto, unfolding(crate::specs::Table::feature_reserved))]
fn feature_reserved(registers: ScalableRegisters, e: Entry64) -> bool
    ensures { result ≡ feature_reserved registers (number64 e) }
{
    (e.bit(9) & !registers.slads) | (e.bit(128) & !registers.srs) | (e.bit(135) & !registers.eafs)
}

// Of the two tables' addresses, bits 63:HAW and 191:(128+HAW).
fn pointers_reserved(haw: u8, e: Entry64) -> bool
    ensures { result ≡ pointers_reserved haw (number64 e) }
{
    at_or_above_power(e.w0, haw as u32) | at_or_above_power(e.w2, haw as u32)
}

// Bits 11:10, 86:80, 139:136 and 511:192; the addresses, and what isn't supported.
#[tactic(auto, unfolding(crate::specs::Table::table_reserved))]
pub(crate) fn table_reserved(registers: ScalableRegisters, e: Entry64) -> bool
    ensures { result ≡ table_reserved registers (number64 e) }
{
    e.any_set(11, 10)
        | e.any_set(86, 80)
        | e.any_set(139, 136)
        | upper_set(e)
        | pointers_reserved(registers.base.haw, e)
        | feature_reserved(registers, e)
}

// PGTT, bits 8:6.
#[tactic(auto, using(image::proofs::Fields::fits))]
pub(crate) fn translation_type(e: Entry64) -> u64
    ensures { (result ≡ bits (number64 e) 8 6) × (result < 8) }
{
    e.bits(8, 6)
}

// AW, bits 4:2.
#[tactic(auto, using(image::proofs::Fields::fits))]
pub(crate) fn address_width(e: Entry64) -> u64
    ensures { (result ≡ bits (number64 e) 4 2) × (result < 8) }
{
    e.bits(4, 2)
}

// FLPM, bits 131:130.
#[tactic(auto, using(image::proofs::Fields::fits))]
pub(crate) fn paging_mode(e: Entry64) -> u64
    ensures { (result ≡ bits (number64 e) 131 130) × (result < 4) }
{
    e.bits(131, 130)
}

pub(crate) fn pasid_entry_of(privileged: bool, fpd: bool, e: Entry64) -> PasidEntry
    ensures { result ≡ pasid_entry_of privileged fpd (number64 e) }
{
    PasidEntry {
        kind: translation_type(e) as u8,
        second_top: in_place(e.w0, 63, 12),
        second_levels: address_width(e) as u32 + 2,
        first_top: in_place(e.w2, 63, 12),
        first_levels: paging_mode(e) as u32 + 4,
        slade: e.bit(9),
        pwsnp: e.bit(87),
        wpe: e.bit(132),
        nxe: e.bit(133),
        eafe: e.bit(135),
        privileged,
        fpd: fpd | e.bit(1),
    }
}

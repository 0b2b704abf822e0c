// The reserved bits of a remapping entry.
ghost use Rattle.std.specs.Prelude.{◌≡◌, ◌^◌, ◌<◌};
ghost use Rattle.image.specs.Answers.{number16};
ghost use Rattle.irte.specs.Irte.{descriptor_address, reserved_in_all, reserved_in_remapped, reserved_in_posted, reserved_irte};

use image::{Entry, Entry16};
use registers::{Registers, at_or_above_power};

// The host address of the posted descriptor.
#[tactic(auto, unfolding(image::specs::Bits::bits))]
pub fn descriptor_address(e: Entry16) -> u64
    ensures { (result ≡ descriptor_address (number16 e)) × (result < 2 ^ 64) }
{
    e.bits(63, 38) * 0x40 + e.bits(127, 96) * 0x1_0000_0000
}

fn reserved_in_all(posting: bool, e: Entry16) -> bool
    ensures { result ≡ reserved_in_all posting (number16 e) }
{
    (e.bits(83, 82) == 3) | (e.bit(15) & !posting)
}

fn reserved_in_remapped(eime: bool, e: Entry16) -> bool
    ensures { result ≡ reserved_in_remapped eime (number16 e) }
{
    let mode = e.bits(7, 5);
    e.any_set(14, 12)
        | e.any_set(31, 24)
        | e.any_set(127, 84)
        | (mode == 3)
        | (mode == 6)
        | (!eime & (e.any_set(39, 32) | e.any_set(63, 48)))
}

fn reserved_in_posted(haw: u8, e: Entry16) -> bool
    ensures { result ≡ reserved_in_posted haw (number16 e) }
{
    e.any_set(7, 2)
        | e.any_set(13, 12)
        | e.any_set(37, 24)
        | e.any_set(95, 84)
        | at_or_above_power(descriptor_address(e), haw as u32)
}

#[tactic(auto, unfolding(crate::specs::Irte::reserved_irte))]
pub(crate) fn reserved_irte(registers: Registers, e: Entry16) -> bool
    ensures { result ≡ reserved_irte registers (number16 e) }
{
    if reserved_in_all(registers.posting, e) {
        return true;
    }
    if e.bit(15) {
        return reserved_in_posted(registers.haw, e);
    }
    reserved_in_remapped(registers.eime, e)
}

// The interrupt remapping table entry (IRTE): a remapped one, or with bit 15 a posted one.
#![tactic(auto)]

ghost use Rattle.std.specs.Prelude.{◌≡◌};
ghost use Rattle.image.specs.Answers.{number16};
ghost use Rattle.image.specs.Place.{entry_at};
ghost use Rattle.irte.specs.Answers.{remapped_of, request_of, asked_of, IrteNames};
ghost use Rattle.irte.specs.Irte.{destination_of, remapped_by, irte_of, asked};

mod reserved;
mod source;

use faults::{Reason, Stop};
use image::{Entry, Entry16};
use registers::{Registers, SourceId};
pub use reserved::descriptor_address;
use reserved::reserved_irte;
use source::source_allowed;

#[derive(Clone, Copy, Debug, PartialEq, Eq)]
pub struct Remapped {
    pub destination_mode: bool,
    pub redirection_hint: bool,
    pub trigger: bool,
    pub delivery: u8,
    pub vector: u8,
    pub destination: u32,
}

// What an entry asks for.
#[derive(Clone, Copy, Debug, PartialEq, Eq)]
pub enum Irte {
    Remaps(Remapped),
    // A post of the vector to the descriptor at the address, urgent where URG says so, with FPD for the faults there.
    Posts {
        descriptor: u64,
        vector: u8,
        urgent: bool,
        fpd: bool,
    },
}

// All 32 bits only with EIME. A posted descriptor has its own elsewhere: one function for both would take four numbers of bits.
#[tactic(auto, unfolding(image::specs::Bits::bits))]
fn destination(eime: bool, e: Entry16) -> u32
    ensures { result ≡ destination_of eime (number16 e) }
{
    if eime {
        return e.bits(63, 32) as u32;
    }
    e.bits(47, 40) as u32
}

#[tactic(auto, unfolding(image::specs::Bits::bits))]
fn remapped_by(eime: bool, e: Entry16) -> Remapped
    ensures { remapped_of result ≡ remapped_by eime (number16 e) }
{
    let delivery = e.bits(7, 5) as u8;
    let vector = e.bits(23, 16) as u8;
    Remapped {
        destination_mode: e.bit(2),
        redirection_hint: e.bit(3),
        trigger: e.bit(4),
        delivery,
        vector,
        destination: destination(eime, e),
    }
}

// What an entry that its check lets pass asks for.
#[tactic(auto, unfolding(image::specs::Bits::bits))]
fn irte_of(eime: bool, e: Entry16) -> Irte
    ensures { request_of result ≡ irte_of eime (number16 e) }
{
    if e.bit(15) {
        let vector = e.bits(23, 16) as u8;
        return Irte::Posts {
            descriptor: descriptor_address(e),
            vector,
            urgent: e.bit(14),
            fpd: e.bit(1),
        };
    }
    Irte::Remaps(remapped_by(eime, e))
}

// FPD is read whether the entry is present or not. at: the entry's host address.
#[tactic(auto, unfolding(crate::specs::Irte::irte_check))]
pub fn irte_check(
    registers: Registers,
    source: SourceId,
    at: u64,
    e: Entry16,
) -> Result<Irte, Stop<Reason>>
    ensures result_value { asked_of result ≡ asked registers source.id (number16 e) }
    ensures irte_names { IrteNames result (entry_at at) }
{
    let fpd = e.bit(1);
    let stop = |reason| Stop { reason, fpd, at };
    if !e.bit(0) {
        return Err(stop(Reason::IrteNotPresent));
    }
    if reserved_irte(registers, e) {
        return Err(stop(Reason::IrteReserved));
    }
    if !source_allowed(source, e) {
        return Err(stop(Reason::SourceRejected));
    }
    Ok(irte_of(registers.eime, e))
}

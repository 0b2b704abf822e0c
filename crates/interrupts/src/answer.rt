// What an interrupt request is answered.
ghost use Rattle.std.specs.Prelude.{◌≡◌};
ghost use Rattle.image.specs.Place.{Place};
ghost use Rattle.interrupts.specs.Answers.{blocked_by, delivery_of, outcome_of, entry_of, DeliveryNames};
ghost use Rattle.interrupts.specs.Interrupts.{delivered, concerned};

use crate::descriptor::Notice;
use faults::{Fault, Reason, Stop, interrupt_fault};
use irte::Remapped;
use registers::SourceId;

// The vector posted to the descriptor at an address, and the notification that is due. In this order no word that is moved with the answer
// holds parts of two fields, of these or of another answer's: a notice is moved as one word, and begins at a multiple of 8.
#[derive(Clone, Copy, Debug, PartialEq, Eq)]
pub struct Posted {
    pub vector: u8,
    pub notification: Option<Notice>,
    pub descriptor: u64,
}

// What the table makes of a request that it doesn't block.
#[derive(Clone, Copy, Debug, PartialEq, Eq)]
pub enum Delivery {
    Remap(Remapped),
    Post(Posted),
}

// Why the table blocks a request, with FPD as it was read by then, and the host address of the entry concerned, where there is one.
#[derive(Clone, Copy, Debug, PartialEq, Eq)]
pub struct BlockedBy {
    pub reason: Reason,
    pub fpd: bool,
    pub entry: Option<u64>,
}

impl From<Stop<Reason>> for BlockedBy {
    ghost from_gives = { λ stop by. by ≡ blocked_by stop };

    fn from(stop: Stop<Reason>) -> Self {
        Self {
            reason: stop.reason,
            fpd: stop.fpd,
            entry: Some(stop.at),
        }
    }
}

// An enum and no Result: a blocked request is an answer as much as a remapped one, and a refusal is neither.
#[derive(Clone, Copy, Debug, PartialEq, Eq)]
pub enum InterruptAnswer {
    // The request goes on unchanged.
    Passed,
    Remapped(Remapped),
    Posted(Posted),
    // With the entry concerned.
    Blocked(Fault, Option<u64>),
    // By the number of a `Refusal`: bad registers or windows, or an address outside the interrupt range.
    Refused(u8),
}

pub(crate) fn answer_of(
    source: SourceId,
    index: u32,
    delivery: Result<Delivery, BlockedBy>,
) -> InterruptAnswer
    ensures result_value { outcome_of result ≡ delivered source.id index (delivery_of delivery) }
    ensures result_value_2 { (place : Place) → DeliveryNames delivery place → entry_of result ≡ concerned (outcome_of result) place }
{
    match delivery {
        Ok(Delivery::Remap(remapped)) => InterruptAnswer::Remapped(remapped),
        Ok(Delivery::Post(posted)) => InterruptAnswer::Posted(posted),
        Err(by) => {
            InterruptAnswer::Blocked(interrupt_fault(by.reason, by.fpd, source, index), by.entry)
        }
    }
}

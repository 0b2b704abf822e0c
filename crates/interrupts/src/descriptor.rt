// The posted interrupt descriptor.
ghost use Rattle.std.specs.Prelude.{◌≡◌};
ghost use Rattle.image.specs.Bits.{any_set};
ghost use Rattle.image.specs.Answers.{number64};
ghost use Rattle.interrupts.specs.Descriptor.{reserved_descriptor, notification_destination, notification_due, notification_of, descriptor_check};
ghost use Rattle.image.specs.Place.{entry_at};
ghost use Rattle.interrupts.specs.Answers.{due_of, descriptor_checked, descriptor_place, descriptor_fpd};

use faults::{Reason, Stop};
use image::{Entry, Entry64};

// The notification of a post: it is due where ON and SN don't hold it back.
#[derive(Clone, Copy, Debug, PartialEq, Eq)]
pub struct Notice {
    pub vector: u8,
    pub destination: u32,
}

// Bits 511:320.
fn upper_set(d: Entry64) -> bool
    ensures { result ≡ any_set (number64 d) 511 320 }
{
    (d.w5 != 0) | ((d.w6 != 0) | (d.w7 != 0))
}

fn reserved_descriptor(eime: bool, d: Entry64) -> bool
    ensures { result ≡ reserved_descriptor eime (number64 d) }
{
    d.any_set(271, 258)
        | d.any_set(287, 280)
        | upper_set(d)
        | (!eime & (d.any_set(295, 288) | d.any_set(319, 304)))
}

fn notification_destination(eime: bool, d: Entry64) -> u32
    ensures { result ≡ notification_destination eime (number64 d) }
{
    if eime {
        return d.bits(319, 288) as u32;
    }
    d.bits(303, 296) as u32
}

// ON holds the notification back, and so does SN, but not that of an urgent post.
fn notification_due(urgent: bool, d: Entry64) -> bool
    ensures { result ≡ notification_due urgent (number64 d) }
{
    !d.bit(256) & (urgent | !d.bit(257))
}

fn notification_of(eime: bool, urgent: bool, d: Entry64) -> Option<Notice>
    ensures { due_of result ≡ notification_of eime urgent (number64 d) }
{
    if !notification_due(urgent, d) {
        return None;
    }
    let vector = d.bits(279, 272) as u8;
    let destination = notification_destination(eime, d);
    Some(Notice {
        vector,
        destination,
    })
}

// A stop names the descriptor, and has FPD of the interrupt entry.
pub(crate) fn descriptor_check(
    eime: bool,
    urgent: bool,
    fpd: bool,
    at: u64,
    d: Entry64,
) -> Result<Option<Notice>, Stop<Reason>>
    ensures result_value { descriptor_checked result ≡ descriptor_check eime urgent (number64 d) }
    ensures at_value { descriptor_place result (entry_at at) ≡ entry_at at }
    ensures fpd_value { descriptor_fpd result fpd ≡ fpd }
{
    if reserved_descriptor(eime, d) {
        return Err(Stop {
            reason: Reason::DescriptorReserved,
            fpd,
            at,
        });
    }
    Ok(notification_of(eime, urgent, d))
}

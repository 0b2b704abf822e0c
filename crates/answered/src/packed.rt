// An answer's 32 bytes, by their four words, as an entry of the trace.
ghost use Rattle.std.specs.Prelude.{◌≡◌, ◌+◌, ◌*◌, ◌<◌};
ghost use Rattle.image.specs.Bits.{bits};
ghost use Rattle.answered.specs.Answered.{plain, width_of};
ghost use Rattle.answered.specs.Packed.{fault_packed, remapped_packed, posted_packed, page_packed, passed_packed, entry_packed, packed_in};

use crate::{Answer, request_of};
use image::{field, word_or_zero};
use traced::Traced;

// One of an answer's first 8 bytes.
fn byte(head: u64, n: u32) -> u8
    requires { n < 8 }
    ensures { result ≡ bits head (8 * n + 7) (8 * n) }
{
    field(head, 8 * n + 7, 8 * n) as u8
}

// Bytes 7:4.
fn upper(head: u64) -> u32
    ensures { result ≡ bits head 63 32 }
{
    field(head, 63, 32) as u32
}

// Here and below, flags that don't fit a byte are 255, which no answer has.
fn fault(e: Traced, head: u64, last: u64) -> Traced
    ensures { result ≡ fault_packed e head last }
{
    Traced {
        answer: Answer::Fault as u8,
        number: byte(head, 1),
        flags: byte(head, 2).saturating_add(byte(head, 3).saturating_mul(2)),
        value: last,
        ..request_of(e)
    }
}

fn granted(e: Traced, low: u64) -> Traced
    ensures { result ≡ plain e.kind e.source e.address e.«data» 3 0 0 low }
{
    Traced {
        answer: Answer::Granted as u8,
        value: low,
        ..request_of(e)
    }
}

// Of an interrupt nothing is kept; a translation request is granted its own address.
fn passed(e: Traced, low: u64) -> Traced
    ensures { result ≡ passed_packed e low }
{
    if e.kind == 3 {
        return Traced {
            answer: Answer::Passed as u8,
            ..request_of(e)
        };
    }
    granted(e, low)
}

fn remapped(e: Traced, head: u64) -> Traced
    ensures { result ≡ remapped_packed e head }
{
    Traced {
        answer: Answer::Remapped as u8,
        flags: byte(head, 3).saturating_add(byte(head, 2).saturating_mul(8)),
        vector: byte(head, 1),
        destination: upper(head),
        ..request_of(e)
    }
}

fn posted(e: Traced, head: u64, low: u64) -> Traced
    ensures { result ≡ posted_packed e head low }
{
    let post = Traced {
        answer: Answer::Posted as u8,
        posted: byte(head, 3),
        value: low,
        ..request_of(e)
    };
    if byte(head, 1) == 0 {
        return post;
    }
    Traced {
        answer: Answer::Notified as u8,
        vector: byte(head, 2),
        destination: upper(head),
        ..post
    }
}

pub(crate) fn width(size: u64) -> u8
    ensures { result ≡ width_of size }
{
    match size {
        0x1000 => 12,
        0x20_0000 => 21,
        0x4000_0000 => 30,
        _ => 0,
    }
}

fn page(e: Traced, head: u64, low: u64, middle: u64) -> Traced
    ensures { result ≡ page_packed e head low middle }
{
    Traced {
        answer: Answer::Page as u8,
        number: width(middle),
        flags: byte(head, 1).saturating_add(byte(head, 2).saturating_mul(2)),
        value: low,
        ..request_of(e)
    }
}

// A translation request that is granted nothing.
fn empty(e: Traced) -> Traced
    ensures { result ≡ plain e.kind e.source e.address e.«data» 8 0 0 0 }
{
    Traced {
        answer: Answer::Page as u8,
        ..request_of(e)
    }
}

// By the answer's kind, a number of the C interface. One of no kind has answer 0, which is malformed.
#[tactic(auto, unfolding(crate::specs::Packed::entry_packed))]
fn of_words(e: Traced, head: u64, low: u64, middle: u64, last: u64) -> Traced
    ensures { result ≡ entry_packed e head low middle last }
{
    let kind = byte(head, 0);
    match kind {
        1 => fault(e, head, last),
        2 => Traced {
            answer: Answer::Refused as u8,
            number: byte(head, 1),
            ..request_of(e)
        },
        3 => passed(e, low),
        4 => remapped(e, head),
        5 => posted(e, head, low),
        6 => granted(e, low),
        7 => page(e, head, low, middle),
        8 => empty(e),
        _ => request_of(e),
    }
}

// The entry of a request, whose answer's fields aren't looked at, with an answer.
pub fn with_answer(e: Traced, answer: &[u8]) -> Traced
    ensures { result ≡ packed_in e answer.now }
{
    of_words(
        e,
        word_or_zero(answer, 0),
        word_or_zero(answer, 8),
        word_or_zero(answer, 16),
        word_or_zero(answer, 24),
    )
}

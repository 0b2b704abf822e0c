// An answer's 32 bytes, as four words.
ghost use Rattle.std.specs.Prelude.{◌≡◌, [], ◌∷◌, ◌++◌, ◌<◌, length};
ghost use Rattle.image.specs.Bytes.{bytes_of, spell};
ghost use Rattle.image.specs.Answers.{place_of};
ghost use Rattle.image.specs.Choice.{one-if};
ghost use Rattle.image.specs.Place.{no_entry};
ghost use Rattle.faults.specs.Answers.{fault_of};
ghost use Rattle.dma.specs.Answers as dma;
ghost use Rattle.dma.specs.Requests.{granted};
ghost use Rattle.interrupts.specs.Answers as interrupts;
ghost use Rattle.interrupts.specs.Answers.{due_of};
ghost use Rattle.irte.specs.Answers.{remapped_of};
ghost use Rattle.packing.specs.Answer.{bytes_of_packed, blocked_bytes, refused_bytes, memory_bytes, modes, remapped_bytes, posted_bytes, interrupt_bytes};

use dma::MemoryAnswer;
use faults::{Fault, FaultRecord, record_of};
use image::store8;
use interrupts::{InterruptAnswer, Notice, Remapped};

pub const BLOCKED: u8 = 1;

const REFUSED: u8 = 2;

pub const PASSED: u8 = 3;

const REMAPPED: u8 = 4;

const POSTED: u8 = 5;

const GRANTED: u8 = 6;

// The kinds are 1 to this one: 7 and 8 are those of translation requests.
pub const LAST_KIND: u8 = 8;

#[derive(Clone, Copy)]
pub struct Packed {
    pub head: u64,
    pub low: u64,
    pub high: u64,
    pub last: u64,
}

// The kind, bytes 1, 2 and 3, and bytes 7:4.
pub fn head(kind: u8, one: u8, two: u8, three: u8, four: u32) -> u64
    ensures { bytes_of 8 result ≡ kind ∷ one ∷ two ∷ three ∷ bytes_of 4 four }
{
    kind as u64
        + one as u64 * 0x100
        + two as u64 * 0x1_0000
        + three as u64 * 0x100_0000
        + four as u64 * 0x1_0000_0000
}

pub fn flag(on: bool) -> u8
    ensures { (result ≡ one-if on) × (result < 2) }
{
    if on { 1 } else { 0 }
}

// An answer that names no byte from 8 up.
pub fn short(head: u64) -> Packed
    ensures { bytes_of_packed result ≡ bytes_of 8 head ++ bytes_of 16 0 ++ bytes_of 8 0 }
{
    Packed {
        head,
        low: 0,
        high: 0,
        last: 0,
    }
}

// Byte 3 tells whether the last word is an entry's address.
pub fn pack_blocked(reason: u8, fault: FaultRecord, entry: Option<u64>) -> Packed
    ensures { bytes_of_packed result ≡ blocked_bytes (record { reason = reason; recordable = fault.recordable; contents = spell (fault.low ∷ fault.high ∷ []) }) (place_of entry) }
{
    let told = flag(fault.recordable);
    match entry {
        None => Packed {
            head: head(BLOCKED, reason, told, 0, 0),
            low: fault.low,
            high: fault.high,
            last: 0,
        },
        Some(at) => Packed {
            head: head(BLOCKED, reason, told, 1, 0),
            low: fault.low,
            high: fault.high,
            last: at,
        },
    }
}

pub fn pack_fault(fault: Fault, entry: Option<u64>) -> Packed
    ensures { bytes_of_packed result ≡ blocked_bytes (fault_of fault) (place_of entry) }
{
    pack_blocked(fault.reason.number(), record_of(fault), entry)
}

pub fn pack_granted(address: u64) -> Packed
    ensures { bytes_of_packed result ≡ memory_bytes (granted address) no_entry }
{
    Packed {
        head: head(GRANTED, 0, 0, 0, 0),
        low: address,
        high: 0,
        last: 0,
    }
}

// By its number, which is what C gets.
pub fn pack_refusal(number: u8) -> Packed
    ensures { bytes_of_packed result ≡ refused_bytes number }
{
    short(head(REFUSED, number, 0, 0, 0))
}

fn pack_memory(answer: MemoryAnswer) -> Packed
    ensures { bytes_of_packed result ≡ memory_bytes (dma.outcome_of answer) (dma.entry_of answer) }
{
    match answer {
        MemoryAnswer::Granted(address) => pack_granted(address),
        MemoryAnswer::Blocked(fault, entry) => pack_fault(fault, entry),
        MemoryAnswer::Refused(number) => pack_refusal(number),
    }
}

fn modes_of(remapped: Remapped) -> u8
    ensures { result ≡ modes (remapped_of remapped) }
{
    flag(remapped.destination_mode)
        + 2 * flag(remapped.redirection_hint)
        + 4 * flag(remapped.trigger)
}

fn pack_remapped(r: Remapped) -> Packed
    ensures { bytes_of_packed result ≡ remapped_bytes (remapped_of r) }
{
    short(head(REMAPPED, r.vector, r.delivery, modes_of(r), r.destination))
}

fn pack_posted(descriptor: u64, posted: u8, notification: Option<Notice>) -> Packed
    ensures { bytes_of_packed result ≡ posted_bytes descriptor posted (due_of notification) }
{
    match notification {
        None => Packed {
            head: head(POSTED, 0, 0, posted, 0),
            low: descriptor,
            high: 0,
            last: 0,
        },
        Some(
            Notice {
                vector,
                destination,
            },
        ) => Packed {
            head: head(POSTED, 1, vector, posted, destination),
            low: descriptor,
            high: 0,
            last: 0,
        },
    }
}

pub fn pack_interrupt(answer: InterruptAnswer) -> Packed
    ensures { bytes_of_packed result ≡ interrupt_bytes (interrupts.outcome_of answer) (interrupts.entry_of answer) }
{
    match answer {
        InterruptAnswer::Passed => short(head(PASSED, 0, 0, 0, 0)),
        InterruptAnswer::Remapped(remapped) => pack_remapped(remapped),
        InterruptAnswer::Posted(posted) => {
            pack_posted(posted.descriptor, posted.vector, posted.notification)
        }
        InterruptAnswer::Blocked(fault, entry) => pack_fault(fault, entry),
        InterruptAnswer::Refused(number) => pack_refusal(number),
    }
}

fn store_words(buffer: &mut [u8], head: u64, low: u64, high: u64, last: u64)
    requires { length buffer.old ≡ 32 }
    ensures { buffer.new ≡ bytes_of 8 head ++ bytes_of 16 (spell (low ∷ high ∷ [])) ++ bytes_of 8 last }
{
    store8(buffer, 0, head);
    store8(buffer, 8, low);
    store8(buffer, 16, high);
    store8(buffer, 24, last);
}

pub fn store(buffer: &mut [u8], answer: Packed)
    requires { length buffer.old ≡ 32 }
    ensures { buffer.new ≡ bytes_of_packed answer }
{
    store_words(buffer, answer.head, answer.low, answer.high, answer.last);
}

// Of a memory request, whether it went through a cache or not.
pub fn store_memory(buffer: &mut [u8], answer: MemoryAnswer)
    requires { length buffer.old ≡ 32 }
    ensures { buffer.new ≡ memory_bytes (dma.outcome_of answer) (dma.entry_of answer) }
{
    store(buffer, pack_memory(answer));
}

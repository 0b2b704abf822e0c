// Entries of the trace from the unit's requests and answers, and from the bytes of answers.
#![tactic(auto)]

ghost use Rattle.std.specs.Prelude.{◌≡◌, ◌<◌};
ghost use Rattle.image.specs.Answers.{place_of};
ghost use Rattle.image.specs.Choice.{one-if};
ghost use Rattle.faults.specs.Answers.{fault_of};
ghost use Rattle.dma.specs.Answers.{outcome_of, entry_of};
ghost use Rattle.irte.specs.Answers.{remapped_of};
ghost use Rattle.interrupts.specs.Answers as interrupts;
ghost use Rattle.interrupts.specs.Answers.{due_of};
ghost use Rattle.answered.specs.Answered.{plain, fault_traced, kind_of, memory_traced, raised, modes_of, post_traced, interrupt_traced};

mod packed;
mod page;

use dma::{MemoryAnswer, MemoryRequest};
use faults::Fault;
use interrupts::{InterruptAnswer, InterruptRequest, Notice, Posted, Remapped};
pub use packed::with_answer;
pub use page::translation_entry;
use traced::Traced;

// Document 02's number of an answer in an entry. An entry holds the number itself: it may be one that isn't laid out well.
#[derive(Clone, Copy, Debug, PartialEq, Eq)]
pub(crate) enum Answer {
    Refused = 1,
    Fault = 2,
    Granted = 3,
    Passed = 4,
    Remapped = 5,
    Posted = 6,
    Notified = 7,
    Page = 8,
}

// A request with nothing but its answer's number.
pub fn asked(kind: u8, source: u16, address: u64, data: u32) -> Traced
    ensures { result ≡ plain kind source address «data» 0 0 0 0 }
{
    Traced {
        kind,
        answer: 0,
        number: 0,
        flags: 0,
        source,
        vector: 0,
        posted: 0,
        address,
        data,
        destination: 0,
        value: 0,
    }
}

// The request of an entry, without its answer.
pub(crate) fn request_of(e: Traced) -> Traced
    ensures { result ≡ plain e.kind e.source e.address e.«data» 0 0 0 0 }
{
    asked(e.kind, e.source, e.address, e.data)
}

pub(crate) fn flag(on: bool) -> u8
    ensures { (result ≡ one-if on) × (result < 2) }
{
    u8::from(on)
}

fn kind(write: bool) -> u8
    ensures { result ≡ kind_of write }
{
    if write { 2 } else { 1 }
}

#[tactic(auto, unfolding(crate::specs::Answered::memory_traced))]
pub fn memory_entry(request: MemoryRequest, answer: MemoryAnswer) -> Traced
    ensures { result ≡ memory_traced request (outcome_of answer) (entry_of answer) }
{
    let source = request.source;
    let e = asked(kind(request.write), source.id, request.address, 0);
    match answer {
        MemoryAnswer::Granted(host) => Traced {
            answer: Answer::Granted as u8,
            value: host,
            ..e
        },
        MemoryAnswer::Blocked(fault, entry) => with_fault(e, fault, entry),
        MemoryAnswer::Refused(number) => Traced {
            answer: Answer::Refused as u8,
            number,
            ..e
        },
    }
}

// Flag 0 that the fault may be recorded, flag 1 that the value is the address of the entry concerned.
pub(crate) fn with_fault(e: Traced, fault: Fault, entry: Option<u64>) -> Traced
    ensures { result ≡ fault_traced e.kind e.source e.address e.«data» (fault_of fault) (place_of entry) }
{
    let reason = fault.reason;
    let blocked = Traced {
        answer: Answer::Fault as u8,
        number: reason.number(),
        ..request_of(e)
    };
    let flags = flag(fault.recordable);
    match entry {
        None => Traced { flags, ..blocked },
        Some(at) => Traced {
            flags: flags + 2,
            value: at,
            ..blocked
        },
    }
}

fn modes(r: Remapped) -> u8
    ensures { result ≡ modes_of (remapped_of r) }
{
    flag(r.destination_mode)
        + 2 * flag(r.redirection_hint)
        + 4 * flag(r.trigger)
        + 8 * (r.delivery % 8)
}

fn message(request: InterruptRequest) -> Traced
    ensures { result ≡ raised request 0 0 0 0 0 0 }
{
    let source = request.source;
    asked(3, source.id, request.address, request.data)
}

fn remapped(request: InterruptRequest, r: Remapped) -> Traced
    ensures { result ≡ raised request 5 (modes_of (remapped_of r)) r.vector 0 r.destination 0 }
{
    let flags = modes(r);
    let e = message(request);
    Traced {
        answer: Answer::Remapped as u8,
        flags,
        vector: r.vector,
        destination: r.destination,
        ..e
    }
}

fn posted(request: InterruptRequest, p: Posted) -> Traced
    ensures { result ≡ post_traced request p.descriptor p.vector (due_of p.notification) }
{
    let e = message(request);
    match p.notification {
        None => Traced {
            answer: Answer::Posted as u8,
            posted: p.vector,
            value: p.descriptor,
            ..e
        },
        Some(
            Notice {
                vector,
                destination,
            },
        ) => Traced {
            answer: Answer::Notified as u8,
            vector,
            posted: p.vector,
            destination,
            value: p.descriptor,
            ..e
        },
    }
}

#[tactic(auto, unfolding(crate::specs::Answered::interrupt_traced))]
pub fn interrupt_entry(request: InterruptRequest, answer: InterruptAnswer) -> Traced
    ensures { result ≡ interrupt_traced request (interrupts.outcome_of answer) (interrupts.entry_of answer) }
{
    let e = message(request);
    match answer {
        InterruptAnswer::Passed => Traced {
            answer: Answer::Passed as u8,
            ..e
        },
        InterruptAnswer::Remapped(r) => remapped(request, r),
        InterruptAnswer::Posted(p) => posted(request, p),
        InterruptAnswer::Blocked(fault, entry) => with_fault(e, fault, entry),
        InterruptAnswer::Refused(number) => Traced {
            answer: Answer::Refused as u8,
            number,
            ..e
        },
    }
}

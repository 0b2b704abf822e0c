// Memory requests: untranslated reads and writes, from the root entry to a host address or a fault.
#![tactic(auto)]

ghost use Rattle.std.specs.Prelude.{◌≡◌};
ghost use Rattle.image.specs.Place.{Place};
ghost use Rattle.dma.specs.Answers.{outcome_of, entry_of, translation_of, Names};
ghost use Rattle.dma.specs.Translation.{leaf, Reachable};
ghost use Rattle.dma.specs.Requests.{memory_outcome, concerned, memory_answer, memory_answer_place};

mod context;
mod entry;
mod lookup;
mod page;
mod root;
mod translation;
mod walk;

pub use context::{Context, FoundContext, width_supported};
pub use entry::{entry_offset, table_address};
use faults::{Fault, Reason, Stop, memory_fault};
use image::Memory;
pub use lookup::find_context;
pub use page::{
    Fetch, Walk, fetch_entry, host_address, is_leaf, meets_interrupt_range, page_reserved,
};
use registers::{Admission, Refusal, Registers, SourceId, admit, in_interrupt_range};
use translation::translate;
pub use translation::{Translation, overflows, translate_in};

#[derive(Clone, Copy)]
pub struct MemoryRequest {
    pub source: SourceId,
    pub address: u64,
    pub write: bool,
}

// An enum and no Result: a blocked request is an answer as much as a granted one, and a refusal is neither.
#[derive(Clone, Copy)]
pub enum MemoryAnswer {
    // The host address.
    Granted(u64),
    // With the entry concerned.
    Blocked(Fault, Option<u64>),
    // By the number of a `Refusal`: bad registers or windows, an address in the interrupt range, or a page with a byte in it.
    Refused(u8),
}

// A page that the walk ended with: refusal 4, or the host address.
fn page_answer(request: MemoryRequest, frame: u64, level: u32) -> MemoryAnswer
    requires { Reachable (leaf frame level) }
    ensures result_value { outcome_of result ≡ memory_outcome request (leaf frame level) }
    ensures result_value_2 { (place : Place) → entry_of result ≡ concerned (outcome_of result) place }
{
    if meets_interrupt_range(level, frame) {
        return MemoryAnswer::Refused(Refusal::InterruptPage as u8);
    }
    MemoryAnswer::Granted(host_address(level, frame, request.address))
}

pub fn answer(request: MemoryRequest, translated: Result<Translation, Stop<Reason>>) -> MemoryAnswer
    requires { Reachable (translation_of translated) }
    ensures result_value { outcome_of result ≡ memory_outcome request (translation_of translated) }
    ensures result_value_2 { (place : Place) → Names translated place → entry_of result ≡ concerned (outcome_of result) place }
{
    match translated {
        Ok(Translation::Through) => MemoryAnswer::Granted(request.address),
        Ok(Translation::Leaf(frame, level)) => page_answer(request, frame, level),
        Err(Stop { reason, fpd, at }) => MemoryAnswer::Blocked(
            memory_fault(reason, fpd, request.source, request.address, request.write),
            Some(at),
        ),
    }
}

// Where a read or a write of a device may go.
pub fn memory_request(
    registers: Registers,
    windows: &[u64],
    image: &[u8],
    request: MemoryRequest,
) -> MemoryAnswer
    ensures result_value { outcome_of result ≡ memory_answer registers request windows.now image.now }
    ensures result_value_2 { entry_of result ≡ memory_answer_place registers request windows.now image.now }
{
    let Some(memory) = Memory::open(windows, image) else {
        return MemoryAnswer::Refused(Refusal::BadRegisters as u8);
    };
    // `admit` tests them too, which the compiler sees: here refusal 1 is told before there is another one to choose.
    if registers.bad() {
        return MemoryAnswer::Refused(Refusal::BadRegisters as u8);
    }
    match admit(registers, in_interrupt_range(request.address), registers.te) {
        Err(refusal) => MemoryAnswer::Refused(refusal.number()),
        Ok(Admission::Passed) => MemoryAnswer::Granted(request.address),
        Ok(Admission::Taken) => answer(request, translate(&memory, registers, request)),
    }
}

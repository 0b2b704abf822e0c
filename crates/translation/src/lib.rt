// Translation requests: a device with a translation cache of its own asks for a page, its frame, size and rights.
#![tactic(auto)]

ghost use Rattle.std.specs.Prelude.{◌≡◌, ◌<◌, ◌≤◌};
ghost use Rattle.image.specs.Place.{Place};
ghost use Rattle.dma.specs.InterruptRange.{span_at};
ghost use Rattle.translation.specs.Answers.{size_of, completion_of, Names, outcome_of, entry_of};
ghost use Rattle.translation.specs.Completion.{page, Reachable};
ghost use Rattle.translation.specs.Requests.{translation_outcome, concerned, translation_answer, translation_answer_place};

mod completion;
mod step;
mod walk;

use completion::complete;
use dma::meets_interrupt_range;
use faults::{Fault, Reason, Stop, translation_fault};
use image::Memory;
use registers::{
    Admission, Page1G, Page2M, Page4K, Refusal, Registers, SourceId, admit, in_interrupt_range,
};
pub use step::{Page, Step, entry_step};

#[derive(Clone, Copy, Debug, PartialEq, Eq)]
pub struct TranslationRequest {
    pub source: SourceId,
    pub address: u64,
}

// Joined over all levels of the walk.
#[derive(Clone, Copy, Debug, PartialEq, Eq)]
pub struct Rights {
    pub read: bool,
    pub write: bool,
}

#[derive(Clone, Copy, Debug, PartialEq, Eq)]
pub enum PageSize {
    FourKiB,
    TwoMiB,
    OneGiB,
}

impl PageSize {
    // A match and no discriminants, which would repeat the spans.
    pub fn bytes(self) -> u64
        ensures { result ≡ size_of self }
    {
        match self {
            PageSize::FourKiB => Page4K::SPAN,
            PageSize::TwoMiB => Page2M::SPAN,
            PageSize::OneGiB => Page1G::SPAN,
        }
    }
}

// An enum and no Result: a blocked request is an answer as much as a page, and a refusal is neither.
#[derive(Clone, Copy, Debug, PartialEq, Eq)]
pub enum TranslationAnswer {
    // TE is off: the address itself.
    Passed(u64),
    // The frame of a page.
    Page(u64, PageSize, Rights),
    // No right is left, or the address is too wide: both bits off, frame and size 0, no fault and no record.
    Empty,
    // With the entry concerned.
    Blocked(Fault, Option<u64>),
    // By the number of a `Refusal`: bad registers or windows, an address in the interrupt range, or a page with a byte in it.
    Refused(u8),
}

// By the level of a page's entry.
fn page_size(level: u32) -> PageSize
    requires { (0 < level) × (level ≤ 3) }
    ensures { size_of result ≡ span_at level }
{
    match level {
        1 => PageSize::FourKiB,
        2 => PageSize::TwoMiB,
        _ => PageSize::OneGiB,
    }
}

// A page that the walk ended with: refused for the interrupt range, or what it is.
fn page_answer(request: TranslationRequest, found: Page) -> TranslationAnswer
    requires { Reachable (page found.frame found.level found.rights) }
    ensures result_value { outcome_of result ≡ translation_outcome request (page found.frame found.level found.rights) }
    ensures result_value_2 { (place : Place) → entry_of result ≡ concerned (outcome_of result) place }
{
    if meets_interrupt_range(found.level, found.frame) {
        return TranslationAnswer::Refused(Refusal::InterruptPage as u8);
    }
    TranslationAnswer::Page(found.frame, page_size(found.level), found.rights)
}

fn answer(
    request: TranslationRequest,
    completion: Result<Option<Page>, Stop<Reason>>,
) -> TranslationAnswer
    requires { Reachable (completion_of completion) }
    ensures result_value { outcome_of result ≡ translation_outcome request (completion_of completion) }
    ensures result_value_2 { (place : Place) → Names completion place → entry_of result ≡ concerned (outcome_of result) place }
{
    match completion {
        Ok(Some(found)) => page_answer(request, found),
        Ok(None) => TranslationAnswer::Empty,
        Err(Stop { reason, fpd, at }) => TranslationAnswer::Blocked(
            translation_fault(reason, fpd, request.source, request.address),
            Some(at),
        ),
    }
}

// What a device may keep of the page at an address.
pub fn translation_request(
    registers: Registers,
    windows: &[u64],
    image: &[u8],
    request: TranslationRequest,
) -> TranslationAnswer
    ensures result_value { outcome_of result ≡ translation_answer registers request windows.now image.now }
    ensures result_value_2 { entry_of result ≡ translation_answer_place registers request windows.now image.now }
{
    let Some(memory) = Memory::open(windows, image) else {
        return TranslationAnswer::Refused(Refusal::BadRegisters as u8);
    };
    // As for memory requests: told before `admit` has a refusal to choose.
    if registers.bad() {
        return TranslationAnswer::Refused(Refusal::BadRegisters as u8);
    }
    match admit(registers, in_interrupt_range(request.address), registers.te) {
        Err(refusal) => TranslationAnswer::Refused(refusal.number()),
        Ok(Admission::Passed) => TranslationAnswer::Passed(request.address),
        Ok(Admission::Taken) => answer(request, complete(&memory, registers, request)),
    }
}

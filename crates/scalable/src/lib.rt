// Requests in scalable mode: untranslated reads and writes, with a PASID or none.
#![tactic(auto)]

ghost use Rattle.std.specs.Prelude.{false, List, ◌≡◌, length, take, ℕ, ◌%◌, ◌^◌, ◌<◌, ◌≤◌};
ghost use Rattle.image.specs.Place.{Place, stopped_at};
ghost use Rattle.image.specs.Rules.{run};
ghost use Rattle.image.specs.Windows.{of_windows, bad_windows};
ghost use Rattle.dma.specs.Requests.{concerned};
ghost use Rattle.flags.specs.Flags.{set_flags};
ghost use Rattle.nested.specs.Pages.{reached};
ghost use Rattle.scalable.specs.Answers.{outcome_of, entry_of, translation_of, TranslationNames, TranslationReachable};
ghost use Rattle.scalable.specs.Requests.{translated, pasid_too_wide, decision, taken_rules, scalable_answer, scalable_answer_place, scalable_written};

mod lookup;
mod translation;

use dma::meets_interrupt_range;
use faults::Stop;
use flags::set_flags;
use image::{Memory, bad_windows, first_span};
use nested::Reached;
use pasid::{Pasid, ScalableFault, ScalableReason, ScalableRegisters, scalable_fault};
use registers::{Admission, Refusal, SourceId, admit, in_interrupt_range};
use translation::{Translation, translate};

#[derive(Clone, Copy)]
pub struct ScalableRequest {
    pub source: SourceId,
    pub address: u64,
    pub write: bool,
    pub pasid: Pasid,
}

// An enum and no Result: a blocked request is an answer as much as a granted one, and a refusal is neither.
#[derive(Clone, Copy)]
pub enum ScalableAnswer {
    // The host address.
    Granted(u64),
    // With the entry concerned.
    Blocked(ScalableFault, Option<u64>),
    // By the number of a `Refusal`: bad registers or windows, an address in the interrupt range, a page with a byte in it, or a PASID of
    // more than 20 bits.
    Refused(u8),
}

fn pasid_too_wide(pasid: Pasid) -> bool
    ensures { result ≡ pasid_too_wide pasid }
{
    pasid.present & (0x10_0000 <= pasid.value)
}

// A page that is reached: refusal 4, or the host address.
fn page_answer(page: Reached) -> ScalableAnswer
    requires { (page.frame < 2 ^ 52) × (0 < page.level) × (page.level ≤ 3) }
    ensures result_value { (request : ScalableRequest) (flags : List ℕ) → outcome_of result ≡ (decision request (translated (reached page.frame page.level page.host flags))).outcome }
    ensures result_value_2 { (place : Place) → entry_of result ≡ concerned (outcome_of result) place }
{
    if meets_interrupt_range(page.level, page.frame) {
        return ScalableAnswer::Refused(Refusal::InterruptPage as u8);
    }
    ScalableAnswer::Granted(page.host)
}

fn answer(
    request: ScalableRequest,
    translated: Result<Translation, Stop<ScalableReason>>,
) -> ScalableAnswer
    requires { TranslationReachable translated }
    ensures by_index { (flags : List ℕ) → outcome_of result ≡ (decision request (translation_of translated flags)).outcome }
    ensures result_value { (place : Place) → TranslationNames translated place → entry_of result ≡ concerned (outcome_of result) place }
{
    match translated {
        Ok(Translation::Through) => ScalableAnswer::Granted(request.address),
        Ok(Translation::Page(page)) => page_answer(page),
        Err(Stop { reason, fpd, at }) => ScalableAnswer::Blocked(
            scalable_fault(
                reason,
                fpd,
                request.source,
                request.address,
                request.write,
                request.pasid,
            ),
            Some(at),
        ),
    }
}

// How many of the collected flags are set: none where the page is refused.
fn flags_to_set(translated: Result<Translation, Stop<ScalableReason>>) -> usize
    requires { TranslationReachable translated }
    ensures flags_value { (request : ScalableRequest) (flags : List ℕ) → take result flags ≡ (decision request (translation_of translated flags)).flags }
    ensures upper_bound { result ≤ 47 }
{
    match translated {
        Ok(Translation::Through) => 0,
        Ok(Translation::Page(page)) => {
            if meets_interrupt_range(page.level, page.frame) {
                return 0;
            }
            page.count
        }
        Err(_) => 0,
    }
}

// A request that is admitted. It collects at most 47 flags: nested, with 5 and 5 levels, 5 × (5 + 1 + 2) + 1 and 5 + 1.
fn take_up(
    registers: ScalableRegisters,
    windows: &[u64],
    image: &mut [u8],
    request: ScalableRequest,
) -> ScalableAnswer
    requires { (bad_windows windows.now (length image.old) ≡ false) × (registers.base.root_table % 4096 ≡ 0) × (registers.base.haw ≤ 52) }
    ensures result_value { outcome_of result ≡ (run (taken_rules registers request) (of_windows windows.now image.old)).outcome }
    ensures result_value_2 { entry_of result ≡ concerned (outcome_of result) (stopped_at (taken_rules registers request) (of_windows windows.now image.old)) }
    ensures image_after { image.new ≡ set_flags windows.now (run (taken_rules registers request) (of_windows windows.now image.old)).flags image.old }
{
    if pasid_too_wide(request.pasid) {
        return ScalableAnswer::Refused(Refusal::WidePasid as u8);
    }
    let mut flags = [0u64; 47];
    let memory = Memory {
        first: first_span(windows),
        windows,
        image,
    };
    let translated = translate(&memory, registers, request, &mut flags);
    let count = flags_to_set(translated);
    set_flags(windows, image, &flags[..count]);
    answer(request, translated)
}

// Where a read or a write of a device may go. A granted one sets its flags in the entries that it used; any other answer leaves every byte.
pub fn scalable_request(
    registers: ScalableRegisters,
    windows: &[u64],
    image: &mut [u8],
    request: ScalableRequest,
) -> ScalableAnswer
    ensures result_value { outcome_of result ≡ scalable_answer registers request windows.now image.old }
    ensures result_value_2 { entry_of result ≡ scalable_answer_place registers request windows.now image.old }
    ensures image_after { image.new ≡ scalable_written registers request windows.now image.old }
{
    if bad_windows(windows, image.len()) {
        return ScalableAnswer::Refused(Refusal::BadRegisters as u8);
    }
    match admit(
        registers.base,
        in_interrupt_range(request.address),
        registers.base.te,
    ) {
        Err(refusal) => ScalableAnswer::Refused(refusal.number()),
        Ok(Admission::Passed) => {
            if pasid_too_wide(request.pasid) {
                return ScalableAnswer::Refused(Refusal::WidePasid as u8);
            }
            ScalableAnswer::Granted(request.address)
        }
        Ok(Admission::Taken) => take_up(registers, windows, image, request),
    }
}

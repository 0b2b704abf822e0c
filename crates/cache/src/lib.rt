// A cache of 64 translations in front of the walk: a second engine for memory requests. Its state is lent as numbers.
#![tactic(auto)]

ghost use Rattle.std.specs.Prelude.{◌≡◌, ◌%◌, length, replicate};
ghost use Rattle.image.specs.Answers.{memory_of};
ghost use Rattle.image.specs.Place.{stopped_at};
ghost use Rattle.image.specs.Rules.{run};
ghost use Rattle.dma.specs.Answers.{translation_of, Names, outcome_of, entry_of};
ghost use Rattle.dma.specs.Translation.{translation_rules};
ghost use Rattle.cache.specs.Engine.{domain_over};
ghost use Rattle.cache.specs.Numbers.{state_kept, cached_answer, cached_place, cached_state, state_without};

mod keys;
mod state;

use dma::{MemoryAnswer, MemoryRequest, Translation, answer, find_context, translate_in};
use faults::{Reason, Stop};
use image::Memory;
use places::{WORDS, clear, sift};
use registers::{Admission, Refusal, Registers, admit, in_interrupt_range};
use state::{held_address, keep, newest};

// The translation, where nothing that is held answers; a page that is granted is held.
fn translate_and_keep(
    memory: &Memory,
    registers: Registers,
    request: MemoryRequest,
    state: &mut [u64],
) -> Result<Translation, Stop<Reason>>
    requires { registers.root_table % 4096 ≡ 0 }
    ensures result_value { translation_of result ≡ run (translation_rules registers request.address request.write request.source.id) (memory_of memory.now) }
    ensures names { Names result (stopped_at (translation_rules registers request.address request.write request.source.id) (memory_of memory.now)) }
    ensures state_after { state.new ≡ state_kept state.old request (run (translation_rules registers request.address request.write request.source.id) (memory_of memory.now)) (domain_over registers request.source.id (memory_of memory.now)) }
{
    let found = find_context(memory, registers, request.source)?;
    let context = found.context;
    let translated = translate_in(memory, registers, request, context, found.at)?;
    keep(state, request, translated, context.domain);
    Ok(translated)
}

// Where a read or a write of a device may go, from what is held or by the walk.
pub fn cached_request(
    registers: Registers,
    windows: &[u64],
    image: &[u8],
    state: &mut [u64],
    request: MemoryRequest,
) -> MemoryAnswer
    ensures result_value { outcome_of result ≡ cached_answer registers state.old request windows.now image.now }
    ensures result_value_2 { entry_of result ≡ cached_place registers state.old request windows.now image.now }
    ensures state_after { state.new ≡ cached_state registers state.old request windows.now image.now }
{
    let Some(memory) = Memory::open(windows, image) else {
        return MemoryAnswer::Refused(Refusal::BadRegisters as u8);
    };
    match admit(registers, in_interrupt_range(request.address), registers.te) {
        Err(refusal) => MemoryAnswer::Refused(refusal.number()),
        Ok(Admission::Passed) => MemoryAnswer::Granted(request.address),
        Ok(Admission::Taken) => {
            if let Some(age) = newest(state, request) {
                return MemoryAnswer::Granted(held_address(state, age, request.address));
            }
            let translated = translate_and_keep(&memory, registers, request, state);
            answer(request, translated)
        }
    }
}

// Nothing is held any more. It makes an empty cache of any state.
pub fn invalidate_all(state: &mut [u64])
    ensures { state.new ≡ replicate (length state.old) 0 }
{
    clear(state);
}

// Nothing of a domain is held any more. A state of another length stays as it is.
#[tactic(auto, unfolding(crate::specs::Numbers::state_without))]
pub fn invalidate_domain(state: &mut [u64], domain: u16)
    ensures { state.new ≡ state_without state.old domain }
{
    if state.len() != WORDS {
        return;
    }
    sift(state, domain as u64);
}

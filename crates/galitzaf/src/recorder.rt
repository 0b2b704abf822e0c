// The recorder's calls, its state in two bytes: the next slot, and overflow as 0 or 1.
ghost use Rattle.std.specs.Prelude.{◌≡◌, false, eqb, length};
ghost use Rattle.packing.specs.Buffer.{byte};
ghost use Rattle.galitzaf.specs.Recording.{unfit, state_bytes, malformed_answer, clear_slot_call, clear_overflow_call, record_call};

use faults::{FaultRecord, Recorder, slot_count};
use image::word_or_zero;
use packing::{BAD_ANSWER, BAD_RECORDER, BLOCKED, LAST_KIND, NO_FAULT, REFUSED_3, flag};

// Refusal 3, as far as every call checks it: a state that isn't 2 bytes, or records or a next slot out of place.
#[tactic(auto, unfolding(crate::specs::Recording::unfit))]
fn is_unfit(slots: usize, recorder: &[u8]) -> bool
    ensures result_value { result ≡ unfit slots recorder.now }
    ensures two_bytes { result ≡ false → length recorder.now ≡ 2 }
{
    if recorder.len() != 2 {
        return true;
    }
    slots <= recorder[0] as usize
}

fn read_state(recorder: &[u8]) -> Recorder
    requires { length recorder.now ≡ 2 }
    ensures { (result.next ≡ byte recorder.now 0) × (result.overflow ≡ eqb (byte recorder.now 1) 1) }
{
    Recorder {
        next: recorder[0],
        overflow: recorder[1] == 1,
    }
}

fn write_state(recorder: &mut [u8], state: Recorder)
    requires { length recorder.old ≡ 2 }
    ensures { recorder.new ≡ state_bytes state.next state.overflow }
{
    recorder[0] = state.next;
    recorder[1] = flag(state.overflow);
}

#[tactic(auto, unfolding(crate::specs::Recording::clear_slot_call))]
#[unsafe(no_mangle)]
pub extern "C" fn galitzaf_clear_slot(records: &mut [u8], recorder: &[u8], slot: u8) -> u32
    ensures { (result, records.new) ≡ clear_slot_call records.old recorder.now slot }
{
    let slots = slot_count(records.len());
    if is_unfit(slots, recorder) | (slots <= slot as usize) {
        return REFUSED_3;
    }
    if 1 < recorder[1] {
        return BAD_RECORDER;
    }
    let mut state = read_state(recorder);
    state.clear_slot(records, slot).number()
}

#[tactic(auto, unfolding(crate::specs::Recording::clear_overflow_call))]
#[unsafe(no_mangle)]
pub extern "C" fn galitzaf_clear_overflow(records: &[u8], recorder: &mut [u8]) -> u32
    ensures { (result, recorder.new) ≡ clear_overflow_call records.now recorder.old }
{
    if is_unfit(slot_count(records.len()), recorder) {
        return REFUSED_3;
    }
    if 1 < recorder[1] {
        return BAD_RECORDER;
    }
    let mut state = read_state(recorder);
    let answer = state.clear_overflow(records);
    write_state(recorder, state);
    answer.number()
}

// Not 32 bytes, or of no kind that a request answers.
#[tactic(auto, unfolding(crate::specs::Recording::malformed_answer))]
fn bad_answer(answer: &[u8]) -> bool
    ensures result_value { result ≡ malformed_answer answer.now }
    ensures whole { result ≡ false → length answer.now ≡ 32 }
{
    if answer.len() != 32 {
        return true;
    }
    (answer[0] == 0) | (LAST_KIND < answer[0])
}

#[tactic(auto, unfolding(crate::specs::Recording::record_call))]
#[unsafe(no_mangle)]
pub extern "C" fn galitzaf_record(answer: &[u8], records: &mut [u8], recorder: &mut [u8]) -> u32
    ensures { (result, records.new, recorder.new) ≡ record_call answer.now records.old recorder.old }
{
    if is_unfit(slot_count(records.len()), recorder) {
        return REFUSED_3;
    }
    if bad_answer(answer) {
        return BAD_ANSWER;
    }
    if 1 < recorder[1] {
        return BAD_RECORDER;
    }
    if answer[0] != BLOCKED {
        return NO_FAULT;
    }
    let fault = FaultRecord {
        recordable: answer[2] == 1,
        low: word_or_zero(answer, 8),
        high: word_or_zero(answer, 16),
    };
    let mut state = read_state(recorder);
    let said = state.record(records, fault);
    write_state(recorder, state);
    said.number()
}

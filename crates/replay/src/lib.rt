// Replay: the requests of a trace run again, and which of their answers differ.
#![tactic(auto)]

ghost use Rattle.std.specs.Prelude.{◌≡◌, Ok};
ghost use Rattle.answered.specs.Claims.{memory_entry, translation_entry, interrupt_entry};
ghost use Rattle.answered.specs.Told.{memory_in, translation_in, interrupt_in};
ghost use Rattle.interrupts.specs.Interrupts.{interrupt_answer};
ghost use Rattle.interrupts.specs.Post.{interrupt_written};
ghost use Rattle.replay.specs.Again.{again, left_by, same};
ghost use Rattle.replay.specs.Replayed.{compared, replay_at};
ghost use Rattle.replay.specs.Answers.{replayed_of, replayed_with};

use answered::{interrupt_entry, memory_entry, translation_entry};
use dma::{MemoryRequest, memory_request};
use interrupts::{InterruptRequest, interrupt_request};
use registers::{Registers, SourceId};
use trace::{Cursor, Damaged, Traced, next};
use translation::{TranslationRequest, translation_request};

#[tactic(auto, unfolding(answered::specs::Claims::memory_entry))]
fn memory_again(registers: Registers, windows: &[u64], image: &[u8], e: Traced) -> Traced
    ensures { result ≡ memory_entry registers windows.now image.now (memory_in e) }
{
    let request = MemoryRequest {
        source: SourceId::from(e.source),
        address: e.address,
        write: e.kind == 2,
    };
    memory_entry(request, memory_request(registers, windows, image, request))
}

#[tactic(auto, unfolding(answered::specs::Claims::translation_entry))]
fn translation_again(registers: Registers, windows: &[u64], image: &[u8], e: Traced) -> Traced
    ensures { result ≡ translation_entry registers windows.now image.now (translation_in e) }
{
    let request = TranslationRequest {
        source: SourceId::from(e.source),
        address: e.address,
    };
    translation_entry(
        request,
        translation_request(registers, windows, image, request),
    )
}

// Its post is made.
#[tactic(auto, unfolding(answered::specs::Claims::interrupt_entry))]
fn interrupt_again(registers: Registers, windows: &[u64], image: &mut [u8], e: Traced) -> Traced
    ensures value { result ≡ interrupt_entry registers windows.now image.old (interrupt_in e) }
    ensures image_after { image.new ≡ interrupt_written windows.now (interrupt_answer registers (interrupt_in e) windows.now image.old) image.old }
{
    let request = InterruptRequest {
        source: SourceId::from(e.source),
        address: e.address,
        data: e.data,
    };
    interrupt_entry(
        request,
        interrupt_request(registers, windows, image, request),
    )
}

// An entry's request asked again: the entry of its answer now.
#[tactic(auto, unfolding(crate::specs::Again::again, crate::specs::Again::left_by))]
pub fn again(registers: Registers, windows: &[u64], image: &mut [u8], e: Traced) -> Traced
    ensures value { result ≡ again registers windows.now image.old e }
    ensures image_after { image.new ≡ left_by registers windows.now image.old e }
{
    if e.kind == 3 {
        return interrupt_again(registers, windows, image, e);
    }
    if e.kind == 4 {
        return translation_again(registers, windows, image, e);
    }
    memory_again(registers, windows, image, e)
}

#[tactic(auto, unfolding(crate::specs::Again::same))]
pub fn same(a: Traced, b: Traced) -> bool
    ensures { result ≡ same a b }
{
    a == b
}

// What becomes of an entry that is run again.
#[derive(Clone, Copy, Debug, PartialEq, Eq)]
pub enum Compared {
    Same,
    // The answer differs: the entry of the answer now.
    Differs(Traced),
}

// What becomes of a place, and the next place. Of a damaged block nothing is run.
#[derive(Clone, Copy, Debug, PartialEq, Eq)]
pub struct Replayed {
    pub compared: Result<Compared, Damaged>,
    pub next: Cursor,
}

#[tactic(auto, unfolding(crate::specs::Replayed::compared))]
fn compare(registers: Registers, windows: &[u64], image: &mut [u8], e: Traced) -> Compared
    ensures { (next : Cursor) → (replayed_with (Ok result) next, image.new) ≡ compared registers windows.now image.old e next }
{
    let answered = again(registers, windows, image, e);
    if same(e, answered) {
        return Compared::Same;
    }
    Compared::Differs(answered)
}

// The next entry of a trace in order, run again; or the next damaged block; nothing at the end of the trace.
#[tactic(auto, unfolding(crate::specs::Replayed::replay_at))]
pub fn replay(
    registers: Registers,
    windows: &[u64],
    image: &mut [u8],
    bytes: &[u8],
    cursor: Cursor,
) -> Option<Replayed>
    ensures { (replayed_of result, image.new) ≡ replay_at registers windows.now image.old bytes.now cursor.place cursor.index }
{
    let step = next(bytes, cursor)?;
    let Ok(e) = step.found else {
        return Some(Replayed {
            compared: Err(Damaged),
            next: step.next,
        });
    };
    let compared = compare(registers, windows, image, e);
    Some(Replayed {
        compared: Ok(compared),
        next: step.next,
    })
}

// Interrupt requests: from a message to the remapped or posted interrupt or a fault.
#![tactic(auto)]

ghost use Rattle.std.specs.Prelude.{◌≡◌, ◌%◌, ◌^◌, ◌<◌};
ghost use Rattle.image.specs.Place.{stopped_at};
ghost use Rattle.image.specs.Rules.{run};
ghost use Rattle.image.specs.Answers.{memory_of};
ghost use Rattle.interrupts.specs.Answers.{outcome_of, entry_of};
ghost use Rattle.interrupts.specs.Interrupts.{request_rules, interrupt_rules, concerned, interrupt_place, interrupt_answer, interrupt_answer_place};
ghost use Rattle.interrupts.specs.Post.{interrupt_written};

mod answer;
mod descriptor;
mod post;
mod remapping;
mod request;

use answer::answer_of;
pub use answer::{InterruptAnswer, Posted};
pub use descriptor::Notice;
use faults::interrupt_fault;
use image::Memory;
pub use irte::Remapped;
use post::write_post;
use registers::{Admission, Refusal, Registers, SourceId, admit, in_interrupt_range};
use remapping::follow_index;
use request::request_check;

// A message: the address and data that a device wrote.
#[derive(Clone, Copy, Debug, PartialEq, Eq)]
pub struct InterruptRequest {
    pub source: SourceId,
    pub address: u64,
    pub data: u32,
}

// A request past the refusals and the switch.
fn decide_taken(memory: &Memory, registers: Registers, request: InterruptRequest) -> InterruptAnswer
    requires { (registers.interrupt_table % 4096 ≡ 0) × (registers.interrupt_table < 2 ^ 52) }
    ensures result_value { outcome_of result ≡ run (request_rules registers request) (memory_of memory.now) }
    ensures result_value_2 { entry_of result ≡ concerned (outcome_of result) (stopped_at (request_rules registers request) (memory_of memory.now)) }
{
    match request_check(registers, request.address, request.data) {
        Ok(None) => InterruptAnswer::Passed,
        Ok(Some(index)) => {
            let delivery = follow_index(memory, registers, request.source, index);
            answer_of(request.source, index, delivery)
        }
        Err(reason) => {
            InterruptAnswer::Blocked(interrupt_fault(reason, false, request.source, 0), None)
        }
    }
}

// The answer over windows that aren't refused, with nothing written.
fn decide(memory: &Memory, registers: Registers, request: InterruptRequest) -> InterruptAnswer
    ensures result_value { outcome_of result ≡ run (interrupt_rules registers request) (memory_of memory.now) }
    ensures result_value_2 { entry_of result ≡ interrupt_place registers request (memory_of memory.now) }
{
    // As for memory requests: told before `admit` has a refusal to choose.
    if registers.bad() {
        return InterruptAnswer::Refused(Refusal::BadRegisters as u8);
    }
    match admit(
        registers,
        !in_interrupt_range(request.address),
        registers.ire,
    ) {
        Err(refusal) => InterruptAnswer::Refused(refusal.number()),
        Ok(Admission::Passed) => InterruptAnswer::Passed,
        Ok(Admission::Taken) => decide_taken(memory, registers, request),
    }
}

// The answer to an interrupt request, over the memory that the windows show of the run. A post sets its bits in the run; any other answer
// leaves every byte.
pub fn interrupt_request(
    registers: Registers,
    windows: &[u64],
    image: &mut [u8],
    request: InterruptRequest,
) -> InterruptAnswer
    ensures result_value { outcome_of result ≡ interrupt_answer registers request windows.now image.old }
    ensures result_value_2 { entry_of result ≡ interrupt_answer_place registers request windows.now image.old }
    ensures image_after { image.new ≡ interrupt_written windows.now (interrupt_answer registers request windows.now image.old) image.old }
{
    let Some(memory) = Memory::open(windows, image) else {
        return InterruptAnswer::Refused(Refusal::BadRegisters as u8);
    };
    let answer = decide(&memory, registers, request);
    if let InterruptAnswer::Posted(posted) = answer {
        write_post(windows, image, posted);
    }
    answer
}

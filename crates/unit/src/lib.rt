// The whole unit: memory requests, translation requests and interrupts, behind one admission with refusals 1 and 2 and the switches TE and
// IRE; and takes from posted descriptors, which no switch concerns.
#![tactic(auto)]

pub use dma::{MemoryAnswer, MemoryRequest, memory_request};
pub use faults::{Fault, Reason};
pub use interrupts::{
    InterruptAnswer, InterruptRequest, Notice, Posted, Remapped, interrupt_request,
};
pub use registers::{Refusal, Registers, SourceId};
pub use takes::take;
pub use translation::{
    PageSize, Rights, TranslationAnswer, TranslationRequest, translation_request,
};

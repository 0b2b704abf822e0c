// What a blocked request leaves: its reason, whether it may be recorded, and its record; and the recorder that keeps
// 8 to 256 of them in a lent buffer.
#![tactic(auto)]

mod fault;
mod reason;
mod recorder;
mod slots;
mod stop;

pub use fault::{Fault, high_word, interrupt_fault, lies_within, memory_fault, translation_fault};
pub use reason::Reason;
pub use recorder::{FaultRecord, Recorder, RecorderAnswer, record_of, slot_count};
pub use stop::Stop;

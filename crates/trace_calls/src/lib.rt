// The calls on traces, over the buffers that a caller lends: a writer and a reader's place are two numbers each. trace_calls_c exports them for C.
#![tactic(auto)]

mod reading;
mod writing;

pub use reading::{galitzaf_trace_check, galitzaf_trace_next};
// For replay.
pub use reading::replay_entry;
pub use writing::{galitzaf_trace_append, galitzaf_trace_close};

// What a call answers, beside the statuses of every call. Numbers: they are the C interface's, as packing's are.
pub(crate) const BLOCK: u32 = 0x50;

pub(crate) const ENTRY: u32 = 0x51;

pub(crate) const DAMAGED: u32 = 0x52;

pub(crate) const END: u32 = 0x53;

pub(crate) const SAME: u32 = 0x54;

pub(crate) const DIFFERS: u32 = 0x55;

pub(crate) const BAD_TRACE: u32 = 0x107;

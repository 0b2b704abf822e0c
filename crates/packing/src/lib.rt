// What the calls of the C interface have in common, as include/galitzaf.h fixes it: statuses, the registers' bytes, and the bytes of answers.
#![tactic(auto)]

mod answer;
mod arguments;
mod status;
mod unpacking;

pub use answer::{
    BLOCKED, LAST_KIND, PASSED, Packed, flag, head, pack_blocked, pack_fault, pack_granted,
    pack_interrupt, pack_refusal, short, store, store_memory,
};
pub use arguments::bad_arguments;
pub use status::{
    BAD_ANSWER, BAD_KIND, BAD_METERS, BAD_RECORDER, BAD_REGISTERS, BAD_WINDOWS, METERS_REFUSED,
    NO_FAULT, NONE_BAD, NONE_STANDS, OK, REFUSED_3, TAKEN,
};
pub use unpacking::{malformed, unpack};

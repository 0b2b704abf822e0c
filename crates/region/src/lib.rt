// A region of guest memory for page tables: whether it may be used, and a copy of it (document 02, ask 8).
#![tactic(auto)]

mod copy;
mod region;
mod shared;
mod spot;

pub use copy::{copy_in, copy_out};
pub use region::bad_region;

// So many bytes from a host address on.
#[derive(Clone, Copy)]
pub struct Area {
    pub start: u64,
    pub size: u64,
}

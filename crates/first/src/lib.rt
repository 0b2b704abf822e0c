// First-level translation: what a walk makes of one entry.
#![tactic(auto)]

mod canonical;
mod entry;
mod step;

pub use canonical::not_canonical;
pub use entry::flag_clear;
pub use step::{FirstStep, first_step, unfetchable};

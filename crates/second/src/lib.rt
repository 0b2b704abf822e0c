// The second-level walk of scalable mode. It collects the flags of the entries that it uses.
#![tactic(auto)]

mod step;
mod walk;

pub use step::{Page, Space, Wanted};
pub use walk::second_walk;

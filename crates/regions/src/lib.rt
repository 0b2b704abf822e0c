// What stands at an address of a source's pages: a page, a fault or nothing, with its span. A listing is made of these.
#![tactic(auto)]

mod known;
mod tables;
mod walk;

use faults::Reason;
pub use known::{forget, known_level, remember_tables, rights_number, table_span};
use registers::Refusal;
pub use tables::Tables;
use translation::Rights;
pub use walk::{empty_region, region_at};

// What is listed of an address.
#[derive(Clone, Copy, Debug, PartialEq, Eq)]
pub enum What {
    // The frame of a page.
    Page(u64),
    Fault(Reason),
    // A page with a byte in the interrupt range.
    Refused(Refusal),
}

// The span of an entry of a level, with the joined rights: a page's, or those of the entries above a fault.
#[derive(Clone, Copy, Debug, PartialEq, Eq)]
pub struct Region {
    pub level: u32,
    // Beside the level, so that no bytes stand empty behind them, which would be copied at each step of a walk.
    pub rights: Rights,
    // None where no right is left.
    pub what: Option<What>,
}

// The tables of scalable mode, up to the PASID table entry: what each entry's check says, the faults with their numbers and records.
#![tactic(auto)]

mod context;
mod directory;
mod fault;
mod reason;
mod root;
mod table;
mod validity;

pub use context::{ScalableContext, context_check};
pub use directory::{PasidTable, directory_check};
pub use fault::{ScalableFault, scalable_fault};
pub use reason::ScalableReason;
use registers::Registers;
pub use root::root_check;
pub use table::PasidEntry;
pub use validity::table_check;

// The registers of scalable mode: those of legacy mode, whose levels and page sizes are the second level's, and ten capabilities. Any
// value of a capability is good, so that refusal 1 is that of the base registers.
#[derive(Clone, Copy)]
pub struct ScalableRegisters {
    pub base: Registers,
    // First-level, second-level, nested translation and pass-through.
    pub flts: bool,
    pub slts: bool,
    pub nest: bool,
    pub pt: bool,
    // In the first level: 5 levels, 1 GiB pages.
    pub fl5lp: bool,
    pub fl1gp: bool,
    // Accessed and dirty flags in the second level, the extended accessed flag, supervisor requests.
    pub slads: bool,
    pub eafs: bool,
    pub srs: bool,
    // Page walks are coherent.
    pub smpwc: bool,
}

// The PASID of a request; its value is looked at only where one is present. No Option: `context_check` and `pasid_word` name both fields.
#[derive(Clone, Copy)]
pub struct Pasid {
    pub present: bool,
    pub value: u32,
}

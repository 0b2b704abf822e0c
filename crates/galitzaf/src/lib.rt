// The C interface that include/galitzaf.h fixes: arguments are unpacked, the unit is asked, and its answer is packed.
#![tactic(auto)]

mod first_bad;
mod meters;
mod recorder;
mod requests;
mod taking;

pub use first_bad::galitzaf_first_bad;
pub use meters::{galitzaf_reset_meters, galitzaf_tick_meters};
pub use recorder::{galitzaf_clear_overflow, galitzaf_clear_slot, galitzaf_record};
pub use requests::{galitzaf_interrupt_request, galitzaf_memory_request};
pub use taking::galitzaf_take;

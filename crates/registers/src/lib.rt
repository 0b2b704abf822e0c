// The unit's registers, the source id of a request and the sizes of pages.
#![tactic(auto)]

ghost use Rattle.std.specs.Prelude.{◌≡◌};
ghost use Rattle.registers.specs.Registers.{registers_bad, bad_table, outside};

mod admission;
mod page_size;
mod power;
mod refusal;
mod source_id;

pub use admission::{Admission, admit, in_interrupt_range};
pub use page_size::{Page1G, Page2M, Page4K};
pub use power::at_or_above_power;
pub use refusal::Refusal;
pub use source_id::SourceId;

// The unit's registers, by value. Each may hold any value of its type; `bad` tells what the unit refuses.
#[derive(Clone, Copy, Debug, PartialEq, Eq)]
pub struct Registers {
    // Host and guest address widths, in bits.
    pub haw: u8,
    pub mgaw: u8,
    // Which depths of page tables are supported.
    pub levels3: bool,
    pub levels4: bool,
    pub levels5: bool,
    pub pages_2m: bool,
    pub pages_1g: bool,
    pub posting: bool,
    pub root_table: u64,
    pub interrupt_table: u64,
    // The interrupt table has 2^(S+1) entries.
    pub s: u8,
    // Translation, interrupt remapping, x2APIC destinations, compatibility-format interrupts allowed.
    pub te: bool,
    pub ire: bool,
    pub eime: bool,
    pub cfis: bool,
}

impl Registers {
    // Why a request is refused first. A HAW in its range is below 64, so that the shifts by it need no test. No other test hides behind a branch:
    // good registers, the usual case, take them all.
    pub fn bad(self) -> bool
        ensures { result ≡ registers_bad self }
    {
        if out_of_range(self.haw, 36, 52) {
            return true;
        }
        out_of_range(self.mgaw, 39, 57)
            | !(self.levels3 | self.levels4 | self.levels5)
            | bad_table(self.haw, self.root_table)
            | bad_table(self.haw, self.interrupt_table)
            | out_of_range(self.s, 0, 15)
    }
}

fn out_of_range(x: u8, low: u8, high: u8) -> bool
    ensures { result ≡ outside x low high }
{
    (x < low) | (high < x)
}

// A table address is a multiple of 4096 below 2^HAW.
pub fn bad_table(haw: u8, at: u64) -> bool
    ensures { result ≡ bad_table haw at }
{
    (at % Page4K::SPAN != 0) | at_or_above_power(at, haw as u32)
}

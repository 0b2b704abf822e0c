// The region of an address: the walk of a translation request, with the span at whose entry or table it ends.
ghost use Rattle.std.specs.Prelude.{IfOk, true, false, ◌≡◌, length, ◌-◌, ◌%◌, ◌<◌};
ghost use Rattle.image.specs.Answers.{memory_of};
ghost use Rattle.faults.specs.Reason.{number_of};
ghost use Rattle.translation.specs.Completion.{page, empty, fault, Reachable};
ghost use Rattle.translation.specs.Rights.{both};
ghost use Rattle.regions.specs.Answers.{region_of, onward_of, at_top};
ghost use Rattle.regions.specs.Outside.{table_outside};
ghost use Rattle.regions.specs.Region.{ended, region_step, region_in};

use crate::tables::{Reached, Tables};
use crate::{Region, What};
use dma::{Walk, meets_interrupt_range};
use faults::Reason;
use image::Memory;
use registers::{Refusal, Registers};
use translation::{Page, Rights, Step, entry_step};

// None of a table's bytes is in a window: windows begin at multiples of 4096, so the first byte tells.
fn table_outside(memory: &Memory, table: u64) -> bool
    requires { table % 4096 ≡ 0 }
    ensures { result ≡ table_outside memory.now.windows.now table }
{
    memory.window(table).is_none()
}

// A page with a byte in the interrupt range is refused.
fn page_region(found: Page) -> Region
    requires { Reachable (page found.frame found.level found.rights) }
    ensures { (above : _) → region_of result ≡ ended found.level above (page found.frame found.level found.rights) }
{
    let what = if meets_interrupt_range(found.level, found.frame) {
        What::Refused(Refusal::InterruptPage)
    } else {
        What::Page(found.frame)
    };
    Region {
        level: found.level,
        what: Some(what),
        rights: found.rights,
    }
}

fn fault_region(level: u32, reason: Reason, rights: Rights) -> Region
    ensures { (fpd : _) → region_of result ≡ ended level rights (fault (number_of reason) fpd) }
{
    Region {
        level,
        what: Some(What::Fault(reason)),
        rights,
    }
}

// Where no right is left nothing is told.
pub fn empty_region(level: u32) -> Region
    ensures { (above : _) → region_of result ≡ ended level above empty }
{
    Region {
        level,
        what: None,
        rights: Rights {
            read: false,
            write: false,
        },
    }
}

// One level of the walk: the table that it leads to, or the region at which the walk ends.
pub fn table_step(
    memory: &Memory,
    registers: Registers,
    address: u64,
    at: Reached,
) -> Result<Reached, Region>
    ensures onward { onward_of result ≡ region_step registers (memory_of memory.now) (table_outside memory.now.windows.now) address (at.level - 1) at.table at.rights }
    ensures a_level_down { IfOk result (λ next. next.level ≡ at.level - 1) }
{
    let below = at.level - 1;
    if table_outside(memory, at.table) {
        return Err(fault_region(at.level + 1, Reason::PageEntryAccess, at.rights));
    }
    // FPD plays no part in a listing.
    let walk = Walk {
        address,
        fpd: false,
    };
    let step = match entry_step(memory, registers, walk, below, at.table, at.rights) {
        Ok(step) => step,
        Err(stop) => return Err(fault_region(at.level, stop.reason, at.rights)),
    };
    match step {
        Step::Down(table, rights) => Ok(Reached {
            level: below,
            table,
            rights,
        }),
        Step::Page(found) => Err(page_region(found)),
        Step::Empty => Err(empty_region(at.level)),
    }
}

// Where a walk begins.
pub fn at_top(tables: Tables) -> Reached
    ensures { result ≡ at_top tables }
{
    Reached {
        level: tables.levels,
        table: tables.top,
        rights: Rights {
            read: true,
            write: true,
        },
    }
}

pub fn region_at(memory: &Memory, tables: Tables, address: u64) -> Region
    ensures { region_of result ≡ region_in tables.registers (memory_of memory.now) (table_outside memory.now.windows.now) address tables.levels tables.top both }
{
    // Part by part: a copy of the whole would wait until all that the step stored of it is through.
    let mut level = tables.levels;
    let mut table = tables.top;
    let mut above = at_top(tables).rights;
    for _ in 0..tables.levels {
        let at = Reached {
            level,
            table,
            rights: above,
        };
        match table_step(memory, tables.registers, address, at) {
            Ok(next) => {
                level = next.level;
                table = next.table;
                above = next.rights;
            }
            Err(region) => return region,
        }
    }
    // No step leads below level 1, so this is never reached; the rights are not told here, so that they stay one word on the walk.
    empty_region(1)
}

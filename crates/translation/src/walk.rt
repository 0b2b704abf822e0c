// The walk of a translation request through the page tables, from the top level down, with the rights joined on the way.
ghost use Rattle.std.specs.Prelude.{◌≡◌};
ghost use Rattle.image.specs.Place.{Place, last_tried};
ghost use Rattle.image.specs.Rules.{run};
ghost use Rattle.image.specs.Answers.{memory_of};
ghost use Rattle.dma.specs.Context.{Usable};
ghost use Rattle.translation.specs.Answers.{completion_of, Names};
ghost use Rattle.translation.specs.Completion.{joined_rules};
ghost use Rattle.translation.specs.Rights.{both};

use crate::Rights;
use crate::step::{Page, Step, entry_step};
use dma::{Context, Walk};
use faults::{Reason, Stop};
use image::Memory;
use registers::Registers;

pub(crate) fn walk(
    memory: &Memory,
    registers: Registers,
    address: u64,
    context: Context,
) -> Result<Option<Page>, Stop<Reason>>
    requires { Usable context }
    ensures result_value { completion_of result ≡ run (joined_rules registers address context.fpd context.levels context.top both) (memory_of memory.now) }
    ensures names { (before : Place) → Names result (last_tried before (joined_rules registers address context.fpd context.levels context.top both) (memory_of memory.now)) }
{
    let given = Walk {
        address,
        fpd: context.fpd,
    };
    let mut table = context.top;
    let mut rights = Rights {
        read: true,
        write: true,
    };
    for below in (0..context.levels).rev() {
        match entry_step(memory, registers, given, below, table, rights)? {
            Step::Page(page) => return Ok(Some(page)),
            Step::Empty => return Ok(None),
            Step::Down(next, joined) => {
                table = next;
                rights = joined;
            }
        }
    }
    // No step leads below level 1.
    Err(Stop {
        reason: Reason::PageEntryAccess,
        fpd: given.fpd,
        at: table,
    })
}

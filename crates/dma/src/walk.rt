// The walk through the page tables, from the top level down.
ghost use Rattle.std.specs.Prelude.{◌≡◌, length};
ghost use Rattle.image.specs.Place.{Place, last_tried};
ghost use Rattle.image.specs.Rules.{run};
ghost use Rattle.image.specs.Answers.{memory_of};
ghost use Rattle.dma.specs.Answers.{translation_of, Names};
ghost use Rattle.dma.specs.Context.{Usable};
ghost use Rattle.dma.specs.Translation.{page_rules};

use crate::context::Context;
use crate::page::{Step, Walk, page_step};
use crate::translation::Translation;
use faults::{Reason, Stop};
use image::Memory;
use registers::Registers;

pub(crate) fn walk(
    memory: &Memory,
    registers: Registers,
    address: u64,
    write: bool,
    context: Context,
) -> Result<Translation, Stop<Reason>>
    requires { Usable context }
    ensures result_value { translation_of result ≡ run (page_rules registers address write context.fpd context.levels context.top) (memory_of memory.now) }
    ensures names { (before : Place) → Names result (last_tried before (page_rules registers address write context.fpd context.levels context.top) (memory_of memory.now)) }
{
    let given = Walk {
        address,
        fpd: context.fpd,
    };
    let mut table = context.top;
    for below in (0..context.levels).rev() {
        match page_step(memory, registers, given, write, below, table)? {
            Step::Down(next) => table = next,
            Step::Leaf(frame, level) => return Ok(Translation::Leaf(frame, level)),
        }
    }
    // No step leads below level 1.
    Err(Stop {
        reason: Reason::PageEntryAccess,
        fpd: given.fpd,
        at: table,
    })
}

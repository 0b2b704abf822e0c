// From the root entry to a page or a fault.
ghost use Rattle.std.specs.Prelude.{◌≡◌, length, ◌%◌, ◌≤◌};
ghost use Rattle.dma.specs.Context.{Usable};
ghost use Rattle.image.specs.Place.{entry_at, last_tried, stopped_at};
ghost use Rattle.image.specs.Rules.{run};
ghost use Rattle.image.specs.Answers.{memory_of};
ghost use Rattle.dma.specs.Answers.{translation_of, Names};
ghost use Rattle.dma.specs.Translation.{overflows as address_overflows, width_rules, translation_rules};

use crate::MemoryRequest;
use crate::context::Context;
use crate::lookup::find_context;
use crate::walk::walk;
use faults::{Reason, Stop};
use image::Memory;
use registers::{Page4K, Registers, at_or_above_power};

#[derive(Clone, Copy)]
pub enum Translation {
    // The address itself.
    Through,
    // The frame of a page, and the level of its entry.
    Leaf(u64, u32),
}

// The address is at or above 2^X: X is the smaller of MGAW and AW's bits.
pub fn overflows(registers: Registers, levels: u32, address: u64) -> bool
    requires { levels ≤ 5 }
    ensures { result ≡ address_overflows registers levels address }
{
    at_or_above_power(
        address,
        (registers.mgaw as u32).min(Page4K::SHIFT + 9 * levels),
    )
}

// In a context, whose entry is at an address: the width, then pass-through or the walk.
#[tactic(auto, unfolding(crate::specs::Translation::width_rules, image::specs::Rules::run, image::specs::Place::last_tried))]
pub fn translate_in(
    memory: &Memory,
    registers: Registers,
    request: MemoryRequest,
    context: Context,
    at: u64,
) -> Result<Translation, Stop<Reason>>
    requires { Usable context }
    ensures result_value { translation_of result ≡ run (width_rules registers request.address request.write context) (memory_of memory.now) }
    ensures names { Names result (last_tried (entry_at at) (width_rules registers request.address request.write context) (memory_of memory.now)) }
{
    if overflows(registers, context.levels, request.address) {
        return Err(Stop {
            reason: Reason::AddressOverflow,
            fpd: context.fpd,
            at,
        });
    }
    if context.translation_type == 2 {
        return Ok(Translation::Through);
    }
    walk(memory, registers, request.address, request.write, context)
}

pub(crate) fn translate(
    memory: &Memory,
    registers: Registers,
    request: MemoryRequest,
) -> Result<Translation, Stop<Reason>>
    requires { registers.root_table % 4096 ≡ 0 }
    ensures result_value { translation_of result ≡ run (translation_rules registers request.address request.write request.source.id) (memory_of memory.now) }
    ensures names { Names result (stopped_at (translation_rules registers request.address request.write request.source.id) (memory_of memory.now)) }
{
    let found = find_context(memory, registers, request.source)?;
    translate_in(memory, registers, request, found.context, found.at)
}

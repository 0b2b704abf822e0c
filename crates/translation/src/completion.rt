// From the root entry to a page, the empty answer or a fault.
ghost use Rattle.std.specs.Prelude.{◌≡◌, ◌%◌};
ghost use Rattle.image.specs.Place.{entry_at, last_tried, stopped_at};
ghost use Rattle.image.specs.Rules.{run};
ghost use Rattle.image.specs.Answers.{memory_of};
ghost use Rattle.dma.specs.Context.{Usable};
ghost use Rattle.translation.specs.Answers.{completion_of, Names};
ghost use Rattle.translation.specs.Completion.{type_rules, completion_rules};

use crate::TranslationRequest;
use crate::step::Page;
use crate::walk::walk;
use dma::{FoundContext, find_context, overflows};
use faults::{Reason, Stop};
use image::Memory;
use registers::Registers;

// In a context: its type, then the width, then the walk. None is the empty answer.
#[tactic(auto, unfolding(crate::specs::Completion::type_rules, image::specs::Rules::run, image::specs::Place::last_tried))]
fn complete_in(
    memory: &Memory,
    registers: Registers,
    address: u64,
    found: FoundContext,
) -> Result<Option<Page>, Stop<Reason>>
    requires { Usable found.context }
    ensures result_value { completion_of result ≡ run (type_rules registers address found.context) (memory_of memory.now) }
    ensures names { Names result (last_tried (entry_at found.at) (type_rules registers address found.context) (memory_of memory.now)) }
{
    let context = found.context;
    if (context.translation_type == 0) | (context.translation_type == 2) {
        return Err(Stop {
            reason: Reason::TranslationBlocked,
            fpd: context.fpd,
            at: found.at,
        });
    }
    if overflows(registers, context.levels, address) {
        return Ok(None);
    }
    walk(memory, registers, address, context)
}

pub(crate) fn complete(
    memory: &Memory,
    registers: Registers,
    request: TranslationRequest,
) -> Result<Option<Page>, Stop<Reason>>
    requires { registers.root_table % 4096 ≡ 0 }
    ensures result_value { completion_of result ≡ run (completion_rules registers request.address request.source.id) (memory_of memory.now) }
    ensures names { Names result (stopped_at (completion_rules registers request.address request.source.id) (memory_of memory.now)) }
{
    let found = find_context(memory, registers, request.source)?;
    complete_in(memory, registers, request.address, found)
}

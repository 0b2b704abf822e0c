// From the root entry to a source's context.
ghost use Rattle.std.specs.Prelude.{false, ◌≡◌, length, ◌+◌, ◌*◌, ◌%◌};
ghost use Rattle.image.specs.Place.{entry_at, stopped_at};
ghost use Rattle.image.specs.Rules.{run, answer};
ghost use Rattle.image.specs.Answers.{memory_of};
ghost use Rattle.registers.specs.Source.{devfn_of};
ghost use Rattle.dma.specs.Answers.{lookup_of, lookup_place};
ghost use Rattle.dma.specs.Lookup.{context, no_context, context_rules, lookup_rules};

use crate::context::{FoundContext, context_check};
use crate::root::root_check;
use faults::{Reason, Stop};
use image::{Entry16, Memory};
use registers::{Registers, SourceId};

fn context_in(
    memory: &Memory,
    registers: Registers,
    source: SourceId,
    table: u64,
) -> Result<FoundContext, Stop<Reason>>
    requires { table % 4096 ≡ 0 }
    ensures result_value { lookup_of result ≡ run (context_rules registers no_context (λ c. answer (context c)) source.id table) (memory_of memory.now) }
    ensures result_value_2 { lookup_place result ≡ entry_at (table + 16 * devfn_of source.id) }
{
    let devfn = source.devfn();
    let offset = 16 * devfn as u64;
    let at = table + offset;
    let Ok(e) = memory.table_entry::<Entry16>(table, offset) else {
        return Err(Stop {
            reason: Reason::ContextAccess,
            fpd: false,
            at,
        });
    };
    context_check(registers, at, e)
}

pub fn find_context(
    memory: &Memory,
    registers: Registers,
    source: SourceId,
) -> Result<FoundContext, Stop<Reason>>
    requires { registers.root_table % 4096 ≡ 0 }
    ensures result_value { lookup_of result ≡ run (lookup_rules registers source.id) (memory_of memory.now) }
    ensures result_value_2 { lookup_place result ≡ stopped_at (lookup_rules registers source.id) (memory_of memory.now) }
{
    let bus = source.bus();
    let offset = 16 * bus as u64;
    let at = registers.root_table + offset;
    let Ok(e) = memory.table_entry::<Entry16>(registers.root_table, offset) else {
        return Err(Stop {
            reason: Reason::RootAccess,
            fpd: false,
            at,
        });
    };
    let table = root_check(registers.haw, at, e)?;
    context_in(memory, registers, source, table)
}

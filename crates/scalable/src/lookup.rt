// From the root entry to the PASID table entry.
ghost use Rattle.std.specs.Prelude.{false, ◌≡◌, length, ◌%◌, ◌≤◌};
ghost use Rattle.image.specs.Place.{Place, last_tried};
ghost use Rattle.image.specs.Rules.{run};
ghost use Rattle.image.specs.Answers.{memory_of};
ghost use Rattle.pasid.specs.Context.{Usable};
ghost use Rattle.scalable.specs.Answers.{lookup_of, lookup_place};
ghost use Rattle.scalable.specs.Lookup.{table_rules, directory_rules, context_rules, lookup_rules};

use faults::Stop;
use image::{Entry, Entry16, Entry64, Memory, bit, field};
use pasid::{
    Pasid, PasidEntry, PasidTable, ScalableContext, ScalableReason, ScalableRegisters,
    context_check, directory_check, root_check, table_check,
};
use registers::SourceId;

// What a lookup finds, behind the host address of the last entry that was tried: in this order no word of the two holds parts of two fields.
#[derive(Clone, Copy)]
pub struct FoundEntry {
    pub at: u64,
    pub entry: PasidEntry,
}

fn table_in(
    memory: &Memory,
    registers: ScalableRegisters,
    context: ScalableContext,
    table: PasidTable,
) -> Result<FoundEntry, Stop<ScalableReason>>
    requires { (table.address % 4096 ≡ 0) }
    ensures result_value { lookup_of result ≡ run (table_rules registers context table) (memory_of memory.now) }
    ensures result_value_2 { (before : Place) → lookup_place result ≡ last_tried before (table_rules registers context table) (memory_of memory.now) }
{
    let at = table.address + 64 * (context.pasid % 64) as u64;
    let Ok(e) = memory.entry::<Entry64>(at) else {
        return Err(Stop {
            reason: ScalableReason::TableAccess,
            fpd: table.fpd,
            at,
        });
    };
    match table_check(registers, context.privileged, table.fpd, e) {
        Ok(entry) => Ok(FoundEntry { at, entry }),
        Err(reason) => Err(Stop {
            reason,
            fpd: table.fpd | e.bit(1),
            at,
        }),
    }
}

// The directory may have more than a page.
fn directory_in(
    memory: &Memory,
    registers: ScalableRegisters,
    context: ScalableContext,
) -> Result<FoundEntry, Stop<ScalableReason>>
    requires { Usable context }
    ensures result_value { lookup_of result ≡ run (directory_rules registers context) (memory_of memory.now) }
    ensures result_value_2 { (before : Place) → lookup_place result ≡ last_tried before (directory_rules registers context) (memory_of memory.now) }
{
    let index = (context.pasid / 64) as u64;
    let page = context.directory + 4096 * (index / 512);
    let offset = 8 * (index % 512);
    let at = page + offset;
    let Ok(e) = memory.table_entry::<u64>(page, offset) else {
        return Err(Stop {
            reason: ScalableReason::DirectoryAccess,
            fpd: context.fpd,
            at,
        });
    };
    match directory_check(registers.base.haw, context.fpd, e) {
        Ok(table) => table_in(memory, registers, context, table),
        Err(reason) => Err(Stop {
            reason,
            fpd: context.fpd | bit(e, 1),
            at,
        }),
    }
}

fn context_in(
    memory: &Memory,
    registers: ScalableRegisters,
    source: SourceId,
    pasid: Pasid,
    table: u64,
) -> Result<FoundEntry, Stop<ScalableReason>>
    requires { (table % 4096 ≡ 0) × (registers.base.haw ≤ 52) }
    ensures result_value { lookup_of result ≡ run (context_rules registers pasid source.id table) (memory_of memory.now) }
    ensures result_value_2 { (before : Place) → lookup_place result ≡ last_tried before (context_rules registers pasid source.id table) (memory_of memory.now) }
{
    let offset = 32 * (source.id % 128) as u64;
    let at = table + offset;
    let Ok(e) = memory.table_entry32(table, offset) else {
        return Err(Stop {
            reason: ScalableReason::ContextAccess,
            fpd: false,
            at,
        });
    };
    match context_check(registers.base.haw, pasid, e) {
        Ok(context) => directory_in(memory, registers, context),
        Err(reason) => Err(Stop {
            reason,
            fpd: e.bit(1),
            at,
        }),
    }
}

pub(crate) fn find_pasid_entry(
    memory: &Memory,
    registers: ScalableRegisters,
    source: SourceId,
    pasid: Pasid,
) -> Result<FoundEntry, Stop<ScalableReason>>
    requires { (registers.base.root_table % 4096 ≡ 0) × (registers.base.haw ≤ 52) }
    ensures result_value { lookup_of result ≡ run (lookup_rules registers pasid source.id) (memory_of memory.now) }
    ensures result_value_2 { (before : Place) → lookup_place result ≡ last_tried before (lookup_rules registers pasid source.id) (memory_of memory.now) }
{
    let bus = source.bus();
    let offset = 16 * bus as u64;
    let at = registers.base.root_table + offset;
    let Ok(e) = memory.table_entry::<Entry16>(registers.base.root_table, offset) else {
        return Err(Stop {
            reason: ScalableReason::RootAccess,
            fpd: false,
            at,
        });
    };
    let upper = field(source.id as u64, 7, 7) == 1;
    match root_check(registers.base.haw, upper, e) {
        Ok(table) => context_in(memory, registers, source, pasid, table),
        Err(reason) => Err(Stop {
            reason,
            fpd: false,
            at,
        }),
    }
}

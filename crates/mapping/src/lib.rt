// What is mapped for a source: its pages, and the faults in their place, in address order (document 02, Ask 4).
#![tactic(auto)]

ghost use Rattle.std.specs.Prelude.{Ok, false, ◌≡◌, length, replicate, ℕ, ◌+◌, ◌*◌, ◌%◌, ◌^◌, ◌<◌, ◌≤◌, min};
ghost use Rattle.image.specs.Answers.{memory_of};
ghost use Rattle.image.specs.Rules.{run};
ghost use Rattle.dma.specs.Context.{Usable};
ghost use Rattle.regions.specs.Known.{Sound};
ghost use Rattle.regions.specs.Outside.{table_outside};
ghost use Rattle.mapping.specs.Answers.{told_as};
ghost use Rattle.mapping.specs.Mapping.{in_context, source_rules, mapping_answer};
ghost use Rattle.mapping.specs.Told.{ListedAs};

mod filling;
mod rows;
mod search;

use dma::{Context, find_context};
use faults::Reason;
use filling::fill;
use image::Memory;
use regions::{Tables, forget};
use registers::{Admission, Page4K, Refusal, Registers, SourceId, admit};
pub use rows::SPANS;

#[derive(Clone, Copy, Debug, PartialEq, Eq)]
pub enum Listing {
    // TE is off, or the context passes through.
    Passed,
    // Of the root or context entry.
    Fault(Reason),
    // How many spans were listed, and whether there are more.
    Spans(usize, bool),
}

// 2^X, where the address space of a context ends.
fn space_end(mgaw: u8, levels: u32) -> u64
    requires { (12 ≤ mgaw) × (0 < levels) × (levels ≤ 5) }
    ensures { (result ≡ 2 ^ min mgaw (12 + 9 * levels)) × (result ≤ 2 ^ 57) × (result % 4096 ≡ 0) }
{
    1u64 << (mgaw as u32).min(Page4K::SHIFT + 9 * levels)
}

// Past the root and context entries.
fn list_context(
    memory: &Memory,
    registers: Registers,
    context: Context,
    known: &mut [u64],
    rows: &mut [u64],
) -> Listing
    requires { Usable context × (12 ≤ registers.mgaw)
        × Sound registers (memory_of memory.now) (table_outside memory.now.windows.now) known.old }
    ensures listed_as { ListedAs (in_context registers (memory_of memory.now) (table_outside memory.now.windows.now) context) rows.old rows.new (told_as (Ok result)) }
    ensures known_len_unchanged { length known.new ≡ length known.old }
{
    if context.translation_type == 2 {
        return Listing::Passed;
    }
    let end = space_end(registers.mgaw, context.levels);
    let tables = Tables {
        registers,
        levels: context.levels,
        top: context.top,
    };
    let filled = fill(memory, tables, end, known, rows);
    Listing::Spans(filled.count, filled.more)
}

// Past the registers.
fn list_source(
    memory: &Memory,
    registers: Registers,
    source: SourceId,
    known: &mut [u64],
    rows: &mut [u64],
) -> Listing
    requires { (registers.root_table % 4096 ≡ 0) × (12 ≤ registers.mgaw)
        × Sound registers (memory_of memory.now) (table_outside memory.now.windows.now) known.old }
    ensures listed_as { ListedAs (run (source_rules registers (memory_of memory.now) (table_outside memory.now.windows.now) source.id) (memory_of memory.now)) rows.old rows.new (told_as (Ok result)) }
    ensures known_len_unchanged { length known.new ≡ length known.old }
{
    match find_context(memory, registers, source) {
        Ok(found) => list_context(memory, registers, found.context, known, rows),
        Err(stop) => Listing::Fault(stop.reason),
    }
}

// Lists the source's spans in the lent rows, four numbers each, as many as there is room for and at most 4,096. Known is lent to remember
// tables in, and is zero at last. With 16 numbers for each page of the image no table is walked twice that lists nothing; with fewer, or
// with none, the answer is the same.
pub fn list_spans(
    registers: Registers,
    windows: &[u64],
    image: &[u8],
    source: SourceId,
    known: &mut [u64],
    rows: &mut [u64],
) -> Result<Listing, Refusal>
    ensures listed_as { ListedAs (mapping_answer registers source.id windows.now image.now) rows.old rows.new (told_as result) }
    ensures known_after { known.new ≡ replicate {A = ℕ} (length known.old) 0 }
{
    forget(known);
    let Some(memory) = Memory::open(windows, image) else {
        return Err(Refusal::BadRegisters);
    };
    match admit(registers, false, registers.te)? {
        Admission::Passed => Ok(Listing::Passed),
        Admission::Taken => {
            let listing = list_source(&memory, registers, source, known, rows);
            forget(known);
            Ok(listing)
        }
    }
}

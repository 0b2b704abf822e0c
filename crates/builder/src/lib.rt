// The table builder (document 02, ask 8): maps and unmaps a list of pages in a context, in a region of guest memory, whole or not at all.
#![tactic(auto)]

ghost use Rattle.std.specs.Prelude.{◌≡◌};
ghost use Rattle.builder.specs.Answers.{built_of};
ghost use Rattle.builder.specs.Build.{lent, built};
ghost use Rattle.builder.specs.declared.BuildError.TheVariants.{Before, At};

mod items;
mod ready;
mod reasons;

use image::Memory;
pub use items::BadItem;
use items::take_items;
use marking::mark_tables;
use ready::make_ready;
pub use ready::{NotReady, Unready};
pub use reasons::ItemError;
use region::{Area, copy_in, copy_out};
use registers::{Refusal, Registers, SourceId};

// Why nothing is built.
#[derive(Clone, Copy, Debug, PartialEq, Eq)]
pub enum BuildError {
    // Before any item.
    Before(Unready),
    At(BadItem),
}

impl From<Unready> for BuildError {
    ghost from_gives = { λ unready error. error ≡ Before unready };

    fn from(unready: Unready) -> BuildError {
        BuildError::Before(unready)
    }
}

impl From<BadItem> for BuildError {
    ghost from_gives = { λ item error. error ≡ At item };

    fn from(item: BadItem) -> BuildError {
        BuildError::At(item)
    }
}

// Items are four numbers each: what (bits 1:0 the rights, bit 2 for unmap), place, size, frame. The copy has the region's size, and marks
// a byte for each of its pages; what they hold doesn't matter.
pub fn build(
    registers: Registers,
    windows: &[u64],
    memory: &mut [u8],
    source: SourceId,
    start: u64,
    size: u64,
    items: &[u64],
    copy: &mut [u8],
    marks: &mut [u8],
) -> Result<(), BuildError>
    ensures { (built_of result, lent memory.new copy.new marks.new) ≡ built registers source.id start size windows.now items.now (lent memory.old copy.old marks.old) }
{
    let Some(opened) = Memory::open(windows, memory) else {
        return Err(BuildError::Before(Unready::Refused(Refusal::BadRegisters)));
    };
    let tree = make_ready(
        &opened,
        registers,
        source,
        Area { start, size },
        copy.len() as u64,
        marks.len() as u64,
    )?;
    copy_in(&opened, copy, tree.start);
    if !mark_tables(copy, marks, tree) {
        return Err(BuildError::Before(Unready::NotYet(NotReady::OtherTables)));
    }
    take_items(registers, copy, marks, tree, items)?;
    copy_out(windows, memory, copy, tree.start);
    Ok(())
}

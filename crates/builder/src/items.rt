// A list of pages to map or unmap, taken in order.
ghost use Rattle.std.specs.Prelude.{◌≡◌, ◌+◌, ◌*◌, ◌/◌, ◌^◌, ◌<◌, ◌≤◌, length};
ghost use Rattle.tables.specs.Tables.{tables};
ghost use Rattle.builder.specs.Answers.{reason_of, taken_of};
ghost use Rattle.builder.specs.Items.{item_at, take_item, take_items};

use crate::reasons::{ItemError, check_item, leaf, levels_below, unmaps};
use registers::Registers;
use tables::{Tree, map_page, unmap_page};

#[derive(Clone, Copy)]
pub struct Item {
    pub what: u64,
    pub place: u64,
    pub size: u64,
    pub frame: u64,
}

// The first item that wasn't taken, by its index from 0.
#[derive(Clone, Copy, Debug, PartialEq, Eq)]
pub struct BadItem {
    pub index: u64,
    pub error: ItemError,
}

fn item_at(items: &[u64], i: usize) -> Item
    requires { 4 * i + 4 ≤ length items.now }
    ensures { result ≡ item_at items.now i }
{
    Item {
        what: items[4 * i],
        place: items[4 * i + 1],
        size: items[4 * i + 2],
        frame: items[4 * i + 3],
    }
}

#[tactic(auto, unfolding(crate::specs::Items::take_item))]
fn take_item(
    registers: Registers,
    copy: &mut [u8],
    marks: &mut [u8],
    tree: Tree,
    item: Item,
) -> Result<(), ItemError>
    requires { (registers.haw < 53) × (tree.start + 4096 * length marks.old < 2 ^ 53) × (tree.top < 2 ^ 52) × (tree.below < 5) }
    ensures { (reason_of result, tables copy.new marks.new) ≡ take_item registers tree item (tables copy.old marks.old) }
{
    check_item(registers, tree.below + 1, item)?;
    if unmaps(item) {
        unmap_page(copy, marks, tree, item.place, levels_below(item))?;
        return Ok(());
    }
    map_page(
        copy,
        marks,
        tree,
        item.place,
        levels_below(item),
        leaf(item),
    )?;
    Ok(())
}

pub(crate) fn take_items(
    registers: Registers,
    copy: &mut [u8],
    marks: &mut [u8],
    tree: Tree,
    items: &[u64],
) -> Result<(), BadItem>
    requires { (registers.haw < 53) × (tree.start + 4096 * length marks.old < 2 ^ 53) × (tree.top < 2 ^ 52) × (tree.below < 5) }
    ensures { (taken_of (length items.now / 4) result, tables copy.new marks.new) ≡ take_items registers tree items.now (length items.now / 4) 0 (tables copy.old marks.old) }
{
    for i in 0..items.len() / 4 {
        if let Err(error) = take_item(registers, copy, marks, tree, item_at(items, i)) {
            return Err(BadItem {
                index: i as u64,
                error,
            });
        }
    }
    Ok(())
}

// The reasons against an item, and those that its own numbers tell.
ghost use Rattle.std.specs.Prelude.{◌≡◌, ◌^◌, ◌<◌, ◌≤◌};
ghost use Rattle.dma.specs.InterruptRange.{meets_interrupt_range};
ghost use Rattle.builder.specs.Reasons.{unmaps as asks_unmap, is_large as large, levels_below, leaf_of, bad_size, bad_alignment, bad_place, bad_frame, place_reason, map_reason, item_reason};
ghost use Rattle.tables.specs.Answers.{page_error_number};
ghost use Rattle.builder.specs.Answers.{item_error_number, reason_of};

use crate::items::Item;
use dma::overflows;
use image::field;
use registers::{Registers, at_or_above_power};
use tables::PageError;

// By document 02's numbers.
#[derive(Clone, Copy, Debug, PartialEq, Eq)]
pub enum ItemError {
    Size = 1,
    Alignment = 2,
    Place = 3,
    Rights = 4,
    Frame = 5,
    // A mapped page meets this one.
    Overlap = 6,
    // There are fewer free pages than missing tables.
    TooFewPages = 7,
    // No page of this place and size is mapped.
    NoSuchPage = 8,
}

impl ItemError {
    pub fn number(self) -> u8
        ensures { result ≡ item_error_number self }
    {
        self as u8
    }
}

impl From<PageError> for ItemError {
    ghost from_gives = { λ page item. item_error_number item ≡ page_error_number page };

    fn from(page: PageError) -> ItemError {
        match page {
            PageError::Overlap => ItemError::Overlap,
            PageError::TooFewPages => ItemError::TooFewPages,
            PageError::NoSuchPage => ItemError::NoSuchPage,
        }
    }
}

pub(crate) fn unmaps(item: Item) -> bool
    ensures { result ≡ asks_unmap item }
{
    field(item.what, 2, 2) == 1
}

fn is_large(item: Item) -> bool
    ensures { result ≡ large item }
{
    item.size == 0x20_0000
}

pub(crate) fn levels_below(item: Item) -> u32
    ensures { (result ≡ levels_below item) × (result < 2) }
{
    u32::from(is_large(item))
}

// The entry of a mapped page.
pub(crate) fn leaf(item: Item) -> u64
    requires { item.frame < 2 ^ 52 }
    ensures { result ≡ leaf_of item }
{
    let entry = item.frame + field(item.what, 1, 0);
    if is_large(item) {
        return entry + 0x80;
    }
    entry
}

fn bad_size(registers: Registers, item: Item) -> bool
    ensures { result ≡ bad_size registers item }
{
    !((item.size == 0x1000) | (is_large(item) & registers.pages_2m))
}

fn bad_alignment(item: Item) -> bool
    requires { 0 < item.size }
    ensures { result ≡ bad_alignment item }
{
    (item.place % item.size != 0) | (!unmaps(item) & (item.frame % item.size != 0))
}

// A byte of a page lies in the interrupt range.
fn in_range(at: u64, size: u64) -> bool
    requires { size ≤ 2 ^ 21 }
    ensures { result ≡ meets_interrupt_range at size }
{
    if 0xFEEF_FFFF < at {
        return false;
    }
    0xFEE0_0000 < at + size
}

fn bad_place(registers: Registers, levels: u32, item: Item) -> bool
    requires { (levels ≤ 5) × (item.size ≤ 2 ^ 21) }
    ensures { result ≡ bad_place registers levels item }
{
    overflows(registers, levels, item.place) | in_range(item.place, item.size)
}

fn bad_frame(registers: Registers, item: Item) -> bool
    requires { item.size ≤ 2 ^ 21 }
    ensures { result ≡ bad_frame registers item }
{
    at_or_above_power(item.frame, registers.haw as u32) | in_range(item.frame, item.size)
}

#[tactic(auto, unfolding(crate::specs::Reasons::place_reason))]
fn check_place(registers: Registers, levels: u32, item: Item) -> Result<(), ItemError>
    requires { levels ≤ 5 }
    ensures { reason_of result ≡ place_reason registers levels item }
{
    if bad_size(registers, item) {
        return Err(ItemError::Size);
    }
    if bad_alignment(item) {
        return Err(ItemError::Alignment);
    }
    if bad_place(registers, levels, item) {
        return Err(ItemError::Place);
    }
    Ok(())
}

// Of a map alone.
#[tactic(auto, unfolding(crate::specs::Reasons::map_reason))]
fn check_map(registers: Registers, item: Item) -> Result<(), ItemError>
    requires { item.size ≤ 2 ^ 21 }
    ensures { reason_of result ≡ map_reason registers item }
{
    if unmaps(item) {
        return Ok(());
    }
    if field(item.what, 1, 0) == 0 {
        return Err(ItemError::Rights);
    }
    if bad_frame(registers, item) {
        return Err(ItemError::Frame);
    }
    Ok(())
}

pub(crate) fn check_item(registers: Registers, levels: u32, item: Item) -> Result<(), ItemError>
    requires { levels ≤ 5 }
    ensures { reason_of result ≡ item_reason registers levels item }
{
    check_place(registers, levels, item)?;
    check_map(registers, item)
}

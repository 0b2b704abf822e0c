// A page is mapped.
ghost use Rattle.std.specs.Prelude.{◌≡◌, ◌+◌, ◌-◌, ◌*◌, ◌^◌, ◌<◌, length};
ghost use Rattle.tables.specs.Answers.{reason_of};
ghost use Rattle.tables.specs.Mapped.{new_table, with_leaf, map_at, mapped};
ghost use Rattle.tables.specs.Pages.{lowest};
ghost use Rattle.tables.specs.Tables.{tables};

use crate::entries::{clear_table, is_present, place_of};
use crate::pages::{count_free, lowest_free, mark};
use crate::way::{Stop, way_to};
use crate::{PageError, Tree};
use image::store8;
use registers::Page4K;

// The leaf of a page: its place, how many levels come below it, and its entry.
#[derive(Clone, Copy)]
struct Leaf {
    place: u64,
    last: u32,
    entry: u64,
}

// A table in the lowest free page, whose place it answers, with its entry at a place.
fn new_table(bytes: &mut [u8], marks: &mut [u8], start: u64, at: u64, level: u8) -> u64
    requires { start + 4096 * length marks.old < 2 ^ 53 }
    ensures value { (result ≡ 4096 * lowest marks.old) × (result < 2 ^ 53) }
    ensures marks_after { tables bytes.new marks.new ≡ new_table start at level (tables bytes.old marks.old) }
{
    let page = lowest_free(marks) as u64;
    let table = Page4K::SPAN * page;
    clear_table(bytes, table);
    store8(bytes, at, start + table + 3);
    mark(marks, page, level);
    table
}

// The tables that are missing where a way ends, then the leaf.
fn put_leaf(bytes: &mut [u8], marks: &mut [u8], start: u64, leaf: Leaf, stop: Stop)
    requires { (start + 4096 * length marks.old < 2 ^ 53) × (stop.below < 5) }
    ensures { tables bytes.new marks.new ≡ with_leaf start leaf.place leaf.last leaf.entry (stop.below - leaf.last) stop.at (tables bytes.old marks.old) }
{
    let mut to = stop.at;
    for below in (leaf.last..stop.below).rev() {
        let table = new_table(bytes, marks, start, to, below as u8 + 1);
        to = place_of(leaf.place, table, below);
    }
    store8(bytes, to, leaf.entry);
}

fn map_at(
    bytes: &mut [u8],
    marks: &mut [u8],
    start: u64,
    leaf: Leaf,
    stop: Stop,
) -> Result<(), PageError>
    requires { (start + 4096 * length marks.old < 2 ^ 53) × (stop.below < 5) }
    ensures { (reason_of result, tables bytes.new marks.new) ≡ map_at start leaf.place leaf.last leaf.entry stop (tables bytes.old marks.old) }
{
    if is_present(stop.entry) {
        return Err(PageError::Overlap);
    }
    let missing = stop.below.saturating_sub(leaf.last);
    if count_free(marks) < missing as usize {
        return Err(PageError::TooFewPages);
    }
    put_leaf(bytes, marks, start, leaf, stop);
    Ok(())
}

// The leaf of a page at a place, last being how many levels come below it.
#[tactic(auto, unfolding(crate::specs::Mapped::mapped))]
pub fn map_page(
    bytes: &mut [u8],
    marks: &mut [u8],
    tree: Tree,
    place: u64,
    last: u32,
    leaf: u64,
) -> Result<(), PageError>
    requires { (tree.start + 4096 * length marks.old < 2 ^ 53) × (tree.top < 2 ^ 52) × (tree.below < 5) × (last < 2) }
    ensures { (reason_of result, tables bytes.new marks.new) ≡ mapped tree place last leaf (tables bytes.old marks.old) }
{
    let stop = way_to(bytes, tree, place, last);
    let leaf = Leaf {
        place,
        last,
        entry: leaf,
    };
    map_at(bytes, marks, tree.start, leaf, stop)
}

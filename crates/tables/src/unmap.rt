// A page is unmapped.
ghost use Rattle.std.specs.Prelude.{◌≡◌, ◌+◌, ◌-◌, ◌^◌, ◌<◌};
ghost use Rattle.tables.specs.Answers.{reason_of};
ghost use Rattle.tables.specs.Tables.{tables};
ghost use Rattle.tables.specs.Unmapped.{leaf_here, without_table, freed_tables, unmapped};

use crate::entries::{is_empty, is_present, maps_page};
use crate::pages::mark;
use crate::way::{Stop, way_to};
use crate::{PageError, Tree};
use image::store8;
use registers::Page4K;

// Its page is free, and its entry 0.
fn release_table(bytes: &mut [u8], marks: &mut [u8], table: u64, at: u64)
    ensures { tables bytes.new marks.new ≡ without_table table at (tables bytes.old marks.old) }
{
    store8(bytes, at, 0);
    mark(marks, table / Page4K::SPAN, 0);
}

// The empty tables on the way to a place, from a level up, the top one apart.
fn release_from(bytes: &mut [u8], marks: &mut [u8], tree: Tree, place: u64, from: u32)
    requires { (tree.top < 2 ^ 52) × (tree.below < 5) }
    ensures { tables bytes.new marks.new ≡ freed_tables tree place (tree.below - from) from (tables bytes.old marks.old) }
{
    for below in from..tree.below {
        let stop = way_to(bytes, tree, place, below);
        if !is_empty(bytes, stop.table) {
            return;
        }
        let above = way_to(bytes, tree, place, below + 1);
        release_table(bytes, marks, stop.table, above.at);
    }
}

// The way ends at a page of the size asked for.
fn is_leaf_here(last: u32, stop: Stop) -> bool
    ensures { result ≡ leaf_here last stop }
{
    (stop.below == last) & is_present(stop.entry) & maps_page(last, stop.entry)
}

// The page at a place, last being how many levels come below its leaf.
pub fn unmap_page(
    bytes: &mut [u8],
    marks: &mut [u8],
    tree: Tree,
    place: u64,
    last: u32,
) -> Result<(), PageError>
    requires { (tree.top < 2 ^ 52) × (tree.below < 5) × (last < 2) }
    ensures { (reason_of result, tables bytes.new marks.new) ≡ unmapped tree place last (tables bytes.old marks.old) }
{
    let stop = way_to(bytes, tree, place, last);
    if !is_leaf_here(last, stop) {
        return Err(PageError::NoSuchPage);
    }
    store8(bytes, stop.at, 0);
    release_from(bytes, marks, tree, place, last);
    Ok(())
}

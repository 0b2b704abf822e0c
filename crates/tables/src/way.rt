// The way to a place, from the top table down.
ghost use Rattle.std.specs.Prelude.{◌≡◌, ◌^◌, ◌<◌, ◌≤◌};
ghost use Rattle.tables.specs.Way.{ends as way_ends, stop_in, way};

use crate::Tree;
use crate::entries::{entry_of, is_present, maps_page, place_of, table_of};

// Where a way ends.
#[derive(Clone, Copy)]
pub struct Stop {
    // How many levels come below.
    pub below: u32,
    pub table: u64,
    // The place of the entry, and the entry.
    pub at: u64,
    pub entry: u64,
}

// An entry at which the way ends: one of the level asked for, one that isn't present, or a page's.
fn ends(last: u32, below: u32, e: u64) -> bool
    ensures { result ≡ way_ends last below e }
{
    (below == last) | !is_present(e) | maps_page(below, e)
}

// The entry on the way to a place in a table.
fn stop_in(bytes: &[u8], place: u64, below: u32, table: u64) -> Stop
    requires { (table < 2 ^ 63) × (below < 5) }
    ensures { result ≡ stop_in bytes.now place below table }
{
    let at = place_of(place, table, below);
    Stop {
        below,
        table,
        at,
        entry: entry_of(bytes, at),
    }
}

pub(crate) fn way_to(bytes: &[u8], tree: Tree, place: u64, last: u32) -> Stop
    requires { (tree.top < 2 ^ 52) × (tree.below < 5) }
    ensures value { result ≡ way bytes.now tree place last }
    ensures below_le_below { (result.below ≤ tree.below) × (result.table < 2 ^ 52) }
{
    let mut table = tree.top;
    for below in (1..=tree.below).rev() {
        let stop = stop_in(bytes, place, below, table);
        if ends(last, below, stop.entry) {
            return stop;
        }
        table = table_of(tree.start, stop.entry);
    }
    stop_in(bytes, place, 0, table)
}

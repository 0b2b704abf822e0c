// Whether a context's tables are as built here, and a mark for each page of their region: the level of the table that it is, or 0 for a
// free page (document 02, ask 8).
#![tactic(auto)]

ghost use Rattle.std.specs.Prelude.{◌≡◌, ◌+◌, ◌*◌, ◌^◌, ◌<◌, length, get_or};
ghost use Rattle.marking.specs.Marking.{free_page, leads_to_free, mark_entry as entry_marked, mark_entries as entries_marked, mark_table as table_marked, mark_level as level_marked, mark_levels as levels_marked, mark_all};

use registers::Page4K;
use tables::{Tree, entry_of, is_empty, is_present, maps_page, mark, table_of};

// The mark of a page is 0; a page outside the region has none.
fn is_free(marks: &[u8], table: u64) -> bool
    ensures { result ≡ free_page marks.now table }
{
    marks
        .get((table / Page4K::SPAN) as usize)
        .is_some_and(|mark| *mark == 0)
}

fn leads_to_free(marks: &[u8], start: u64, e: u64) -> bool
    requires { start < 2 ^ 53 }
    ensures { result ≡ leads_to_free start marks.now e }
{
    let table = table_of(start, e);
    (e == start + table + 3) & is_free(marks, table)
}

#[tactic(auto, unfolding(crate::specs::Marking::mark_entry))]
fn mark_entry(marks: &mut [u8], start: u64, below: u32, e: u64) -> bool
    requires { (start < 2 ^ 53) × (below < 5) }
    ensures { (result, marks.new) ≡ entry_marked start below e marks.old }
{
    if !is_present(e) | maps_page(below, e) {
        return true;
    }
    if !leads_to_free(marks, start, e) {
        return false;
    }
    mark(marks, table_of(start, e) / Page4K::SPAN, below as u8);
    true
}

fn mark_entries(bytes: &[u8], marks: &mut [u8], start: u64, below: u32, table: u64) -> bool
    requires { (start < 2 ^ 53) × (below < 5) × (table < 2 ^ 63) }
    ensures { (result, marks.new) ≡ entries_marked bytes.now start below 512 table marks.old }
{
    // No entry of such a table leads to another.
    if below == 0 {
        return true;
    }
    for word in 0..512 {
        if !mark_entry(marks, start, below, entry_of(bytes, table + 8 * word)) {
            return false;
        }
    }
    true
}

// The level of the table that a page is, or 0.
fn level_of(marks: &[u8], page: usize) -> u8
    ensures { result ≡ get_or marks.now page 0 }
{
    marks.get(page).copied().unwrap_or(0)
}

#[tactic(auto, unfolding(crate::specs::Marking::mark_table))]
fn mark_table(bytes: &[u8], marks: &mut [u8], tree: Tree, below: u32, page: usize) -> bool
    requires { (tree.start < 2 ^ 53) × (below < 5) × (4096 * page < 2 ^ 63) }
    ensures { (result, marks.new) ≡ table_marked bytes.now tree below page marks.old }
{
    if level_of(marks, page) != below as u8 + 1 {
        return true;
    }
    let table = Page4K::SPAN * page as u64;
    if (table != tree.top) & is_empty(bytes, table) {
        return false;
    }
    mark_entries(bytes, marks, tree.start, below, table)
}

fn mark_level(bytes: &[u8], marks: &mut [u8], tree: Tree, below: u32) -> bool
    requires { (tree.start + 4096 * length marks.old < 2 ^ 53) × (below < 5) }
    ensures { (result, marks.new) ≡ level_marked bytes.now tree below (length marks.old) 0 marks.old }
{
    for page in 0..marks.len() {
        if !mark_table(bytes, marks, tree, below, page) {
            return false;
        }
    }
    true
}

fn mark_levels(bytes: &[u8], marks: &mut [u8], tree: Tree) -> bool
    requires { (tree.start + 4096 * length marks.old < 2 ^ 53) × (tree.below < 5) }
    ensures { (result, marks.new) ≡ levels_marked bytes.now tree (tree.below + 1) marks.old }
{
    for below in (0..=tree.below).rev() {
        if !mark_level(bytes, marks, tree, below) {
            return false;
        }
    }
    true
}

// Whether the tables are as built here, a page of the region for each mark.
#[tactic(auto, unfolding(crate::specs::Marking::mark_all))]
pub fn mark_tables(bytes: &[u8], marks: &mut [u8], tree: Tree) -> bool
    requires { (tree.start + 4096 * length marks.old < 2 ^ 53) × (tree.below < 5) }
    ensures { (result, marks.new) ≡ mark_all bytes.now tree (length marks.old) }
{
    marks.fill(0);
    if !is_free(marks, tree.top) {
        return false;
    }
    mark(marks, tree.top / Page4K::SPAN, tree.below as u8 + 1);
    mark_levels(bytes, marks, tree)
}

// A context's page tables in a region of memory, held as a run of the region's bytes: a page is mapped or unmapped (document 02, ask 8).
#![tactic(auto)]

mod entries;
mod error;
mod map;
mod pages;
mod unmap;
mod way;

pub use entries::{entry_of, is_empty, is_present, maps_page, table_of};
pub use error::PageError;
pub use map::map_page;
pub use pages::mark;
pub use unmap::unmap_page;

// Where the tables are.
#[derive(Clone, Copy)]
pub struct Tree {
    // The host address of the region's first byte.
    pub start: u64,
    // The place of the top table's first byte in the region.
    pub top: u64,
    // How many levels of tables come below the top one.
    pub below: u32,
}

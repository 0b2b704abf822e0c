// What a walk is given, and where it stands.
use second::Space;

// What a walk is for: the request's address, and whether it is a write.
#[derive(Clone, Copy)]
pub struct Asked {
    pub address: u64,
    pub write: bool,
}

// What is the same for all of its turns.
#[derive(Clone, Copy)]
pub struct Walk {
    pub space: Space,
    pub asked: Asked,
}

#[derive(Clone, Copy)]
pub struct Position {
    // The level of the first-level entry that comes next; 0 for the page itself, which is at an intermediate address.
    pub level: u32,
    // The entry's table; the page's address.
    pub at: u64,
    // The entry is the top one.
    pub top: bool,
    // The host address of the entry that was tried last.
    pub last: u64,
    // How many flags are collected.
    pub count: usize,
}

// Where a first-level entry stands.
#[derive(Clone, Copy)]
pub struct EntryAt {
    // Its host address.
    pub at: u64,
    // The way to it may be written.
    pub writable: bool,
    // How many flags are collected.
    pub count: usize,
}

// The page tables that a walk goes down.
ghost use Rattle.regions.specs.Walkable.{Walkable};

use registers::Registers;
use translation::Rights;

// The page tables of a context, and the registers by which their entries are read.
#[derive(Clone, Copy, Debug, PartialEq, Eq)]
pub struct Tables {
    pub registers: Registers,
    pub levels: u32,
    // The top table's address.
    pub top: u64,
    ghost walkable: { Walkable levels top },
}

// A table that a walk has come to: its level and address, and the rights joined above it.
#[derive(Clone, Copy, Debug, PartialEq, Eq)]
pub struct Reached {
    pub level: u32,
    pub rights: Rights,
    pub table: u64,
    ghost walkable: { Walkable level table },
}

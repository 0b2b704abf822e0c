// First-level and nested translation: the walk by levels whose entries, in a nested translation, are found through the second level.
#![tactic(auto)]

ghost use Rattle.std.specs.Prelude.{Bool, List, ◌≡◌, length, take, ℕ, ◌≤◌};
ghost use Rattle.image.specs.Place.{entry_at};
ghost use Rattle.image.specs.Answers.{memory_of};
ghost use Rattle.nested.specs.Pages.{first_handed, PagesWalkable};
ghost use Rattle.nested.specs.Positions.{kind_rules, rest_rules, PagesTell, PositionFits};

mod level;
mod position;
mod turn;
mod way;

use faults::Stop;
use image::Memory;
use pasid::{PasidEntry, ScalableReason, ScalableRegisters};
use position::Position;
pub use position::{Asked, Walk};
use std::ops::ControlFlow;
use turn::take_turn;

// The page that a translation comes to.
#[derive(Clone, Copy)]
pub struct Reached {
    pub frame: u64,
    // Of its entry.
    pub level: u32,
    // The host address.
    pub host: u64,
    // How many flags are collected.
    pub count: usize,
}

// at: the host address of the PASID table entry, which was tried last.
fn first_position(entry: PasidEntry, at: u64, address: u64) -> Position
    requires { PagesWalkable entry }
    ensures position_fits { PositionFits entry result × (result.last ≡ at) }
    ensures flags_value { (registers : ScalableRegisters) (write : Bool) (flags : List ℕ) → rest_rules registers entry address write result.level result.at (first_handed result.top (take result.count flags)) ≡ kind_rules registers entry address write }
{
    if entry.kind == 2 {
        return Position {
            level: 0,
            at: address,
            top: true,
            last: at,
            count: 0,
        };
    }
    Position {
        level: entry.first_levels,
        at: entry.first_top,
        top: true,
        last: at,
        count: 0,
    }
}

// By PGTT, where it is none that passes through. at: the host address of the PASID table entry, which was tried last.
pub fn walk_pages(
    memory: &Memory,
    walk: Walk,
    at: u64,
    flags: &mut [u64],
) -> Result<Reached, Stop<ScalableReason>>
    requires { PagesWalkable walk.space.entry × (47 ≤ length flags.old) }
    ensures { PagesTell result (kind_rules walk.space.registers walk.space.entry walk.asked.address walk.asked.write) (memory_of memory.now) (entry_at at) flags.new }
{
    let mut position = first_position(walk.space.entry, at, walk.asked.address);
    // A loop: an entry tells where the next turn stands, and whether there is one; no range or list has its turns.
    loop {
        match take_turn(memory, walk, position, flags)? {
            ControlFlow::Continue(next) => position = next,
            ControlFlow::Break(page) => return Ok(page),
        }
    }
}

// A turn of a walk: an entry of the first level, or the page.
ghost use Rattle.std.specs.Prelude.{List, Ok, ◌≡◌, length, ℕ, ◌-◌, ◌*◌, ◌<◌, ◌≤◌};
ghost use Rattle.image.specs.Place.{entry_at};
ghost use Rattle.image.specs.Answers.{memory_of};
ghost use Rattle.dma.specs.Walk.{on_step};
ghost use Rattle.nested.specs.Answers.{level_of, LevelGrows, LevelReachable};
ghost use Rattle.nested.specs.Pages.{host_page_rules, FirstWalkable};
ghost use Rattle.nested.specs.Positions.{rest_rules, PositionFits, TurnTells, turn_rules, TurnLast, TurnFits};

use crate::Reached;
use crate::level::{Level, level_entry};
use crate::position::{Position, Walk};
use crate::way::locate;
use dma::host_address;
use faults::Stop;
use image::Memory;
use pasid::ScalableReason;
use std::ops::ControlFlow;

// What comes after an entry of a level, which was tried last. In a nested translation the page is at an intermediate address.
fn after_level(walk: Walk, level: u32, last: u64, step: Level) -> ControlFlow<Reached, Position>
    requires { FirstWalkable walk.space.entry × (0 < level) × (level ≤ 5) × LevelReachable (Ok step) level × LevelGrows (Ok step) (40 - 8 * (level - 1)) }
    ensures by_index { (flags : List ℕ) → turn_rules result walk flags ≡ on_step (level_of (Ok step) walk.asked.address flags) (host_page_rules walk.space.registers walk.space.entry walk.asked.write) (rest_rules walk.space.registers walk.space.entry walk.asked.address walk.asked.write (level - 1)) }
    ensures turn_last { TurnLast result (entry_at last) }
    ensures turn_fits { TurnFits result walk.space.entry level }
{
    match step {
        Level::Down(table, count) => ControlFlow::Continue(Position {
            level: level - 1,
            at: table,
            top: false,
            last,
            count,
        }),
        Level::Page(frame, of, count) => {
            let host = host_address(of, frame, walk.asked.address);
            if walk.space.entry.kind != 3 {
                return ControlFlow::Break(Reached {
                    frame,
                    level: of,
                    host,
                    count,
                });
            }
            ControlFlow::Continue(Position {
                level: 0,
                at: host,
                top: false,
                last,
                count,
            })
        }
    }
}

// The position after it, or the page.
pub(crate) fn take_turn(
    memory: &Memory,
    walk: Walk,
    position: Position,
    flags: &mut [u64],
) -> Result<ControlFlow<Reached, Position>, Stop<ScalableReason>>
    requires { PositionFits walk.space.entry position × (47 ≤ length flags.old) }
    ensures { TurnTells result walk position (memory_of memory.now) flags.old flags.new }
{
    match locate(memory, walk, position, flags)? {
        ControlFlow::Continue(here) => {
            let step = level_entry(memory, walk, position, here, flags)?;
            Ok(after_level(walk, position.level, here.at, step))
        }
        ControlFlow::Break(page) => Ok(ControlFlow::Break(page)),
    }
}

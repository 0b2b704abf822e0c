// Where a first-level entry or a page stands.
ghost use Rattle.std.specs.Prelude.{◌||◌, ◌≡◌, eqb, length, take, ◌+◌, ◌%◌, ◌^◌, ◌<◌, ◌≤◌};
ghost use Rattle.image.specs.Place.{entry_at, last_tried};
ghost use Rattle.image.specs.Rules.{run};
ghost use Rattle.image.specs.Answers.{memory_of};
ghost use Rattle.nested.specs.Pages.{intermediate_rules, SecondWalkable};
ghost use Rattle.nested.specs.Positions.{place_at, wanted_at, PositionFits, WayTells};
ghost use Rattle.second.specs.Answers.{walked_of, Names, Grown};
ghost use Rattle.second.specs.Second.{Reachable};

use crate::Reached;
use crate::position::{EntryAt, Position, Walk};
use dma::{entry_offset, host_address, overflows};
use faults::Stop;
use image::Memory;
use pasid::{PasidEntry, ScalableReason};
use second::{Page, Wanted, second_walk};
use std::ops::ControlFlow;

// Of the next entry in its table, or of the page itself.
#[tactic(auto, unfolding(crate::specs::Positions::place_at))]
fn place_of(address: u64, level: u32, at: u64) -> u64
    requires { (level ≤ 5) × (0 < level → (at % 4096 ≡ 0) × (at < 2 ^ 52)) }
    ensures value { result ≡ place_at address level at }
    ensures result_value { 0 < level → (result % 8 ≡ 0) × (result < 2 ^ 53) }
{
    if level == 0 {
        return at;
    }
    at + entry_offset(address, level - 1)
}

// The page is always found through the second level, an entry in a nested translation.
fn through_second(kind: u8, level: u32) -> bool
    ensures { result ≡ (eqb level 0 || eqb kind 3) }
{
    (level == 0) | (kind == 3)
}

// An entry is read, and with SLADE written; a page is what the request says.
#[tactic(auto, unfolding(crate::specs::Positions::wanted_at))]
fn wanted_at(entry: PasidEntry, write: bool, level: u32) -> Wanted
    ensures { result ≡ wanted_at entry write level }
{
    if level == 0 {
        return Wanted {
            read: !write,
            write,
        };
    }
    Wanted {
        read: true,
        write: entry.slade,
    }
}

// Through the second level, to an intermediate address.
fn intermediate(
    memory: &Memory,
    walk: Walk,
    position: Position,
    address: u64,
    flags: &mut [u64],
) -> Result<Page, Stop<ScalableReason>>
    requires { SecondWalkable walk.space.entry × (position.count + 6 ≤ length flags.old) }
    ensures flags_after { walked_of result flags.new ≡ run (intermediate_rules walk.space.registers walk.space.entry (wanted_at walk.space.entry walk.asked.write position.level) address (take position.count flags.old)) (memory_of memory.now) }
    ensures names { Names result (last_tried (entry_at position.last) (intermediate_rules walk.space.registers walk.space.entry (wanted_at walk.space.entry walk.asked.write position.level) address (take position.count flags.old)) (memory_of memory.now)) }
    ensures reachable { Reachable (walked_of result flags.new) }
    ensures grown { Grown result position.count (position.count + 6) }
{
    let space = walk.space;
    if overflows(space.registers.base, space.entry.second_levels, address) {
        let reason = ScalableReason::IntermediateOverflow;
        return Err(space.entry.stop(reason, position.last));
    }
    let wanted = wanted_at(space.entry, walk.asked.write, position.level);
    second_walk(memory, space, wanted, address, flags, position.count)
}

// The next entry, or the page where there is none.
pub(crate) fn locate(
    memory: &Memory,
    walk: Walk,
    position: Position,
    flags: &mut [u64],
) -> Result<ControlFlow<Reached, EntryAt>, Stop<ScalableReason>>
    requires { PositionFits walk.space.entry position × (47 ≤ length flags.old) }
    ensures { WayTells result walk position (memory_of memory.now) flags.old flags.new }
{
    let place = place_of(walk.asked.address, position.level, position.at);
    if !through_second(walk.space.entry.kind, position.level) {
        return Ok(ControlFlow::Continue(EntryAt {
            at: place,
            writable: true,
            count: position.count,
        }));
    }
    let page = intermediate(memory, walk, position, place, flags)?;
    let host = host_address(page.level, page.frame, place);
    if position.level == 0 {
        return Ok(ControlFlow::Break(Reached {
            frame: page.frame,
            level: page.level,
            host,
            count: page.count,
        }));
    }
    Ok(ControlFlow::Continue(EntryAt {
        at: host,
        writable: page.writable,
        count: page.count,
    }))
}

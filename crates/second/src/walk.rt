// The second-level walk, from the top level down.
ghost use Rattle.std.specs.Prelude.{◌≡◌, length, take, ◌+◌, ◌%◌, ◌^◌, ◌<◌, ◌≤◌};
ghost use Rattle.image.specs.Place.{Place, last_tried};
ghost use Rattle.image.specs.Rules.{run};
ghost use Rattle.image.specs.Answers.{memory_of};
ghost use Rattle.second.specs.Answers.{walked_of, Names, Grown};
ghost use Rattle.second.specs.Second.{Reachable, at_top, second_rules};

use crate::step::{Above, Page, SecondStep, Space, Wanted, second_entry};
use faults::Stop;
use image::Memory;
use pasid::ScalableReason;

// The page, or why there is none. The flags are collected behind those that the buffer has already.
pub fn second_walk(
    memory: &Memory,
    space: Space,
    wanted: Wanted,
    address: u64,
    flags: &mut [u64],
    count: usize,
) -> Result<Page, Stop<ScalableReason>>
    requires { (0 < space.entry.second_levels) × (space.entry.second_levels ≤ 5) × (space.entry.second_top % 4096 ≡ 0) × (space.entry.second_top < 2 ^ 52) × (count + space.entry.second_levels + 1 ≤ length flags.old) }
    ensures flags_after { walked_of result flags.new ≡ run (second_rules space.registers space.entry wanted address space.entry.second_levels space.entry.second_top (at_top (take count flags.old))) (memory_of memory.now) }
    ensures names { (before : Place) → Names result (last_tried before (second_rules space.registers space.entry wanted address space.entry.second_levels space.entry.second_top (at_top (take count flags.old))) (memory_of memory.now)) }
    ensures reachable { Reachable (walked_of result flags.new) }
    ensures grown { Grown result count (count + space.entry.second_levels + 1) }
{
    let mut table = space.entry.second_top;
    let mut above = Above {
        top: true,
        rights: 3,
        count,
    };
    for below in (0..space.entry.second_levels).rev() {
        match second_entry(memory, space, wanted, address, below, table, above, flags)? {
            SecondStep::Page(page) => return Ok(page),
            SecondStep::Down(next, handed) => {
                table = next;
                above = handed;
            }
        }
    }
    // No step leads below level 1.
    unreachable!()
}

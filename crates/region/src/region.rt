// Whether a region may hold page tables.
ghost use Rattle.std.specs.Prelude.{false, ◌≡◌, ◌+◌, ◌/◌, ◌^◌, ◌<◌, ◌*◌, ◌≤◌, ltb};
ghost use Rattle.registers.specs.Registers.{registers_bad};
ghost use Rattle.region.specs.Region.{pages_shown, bad_region};

use crate::Area;
use crate::shared::shares_tables;
use crate::spot::find_place;
use image::Memory;
use registers::{Page4K, Registers};

// So many pages from a host address on are in the image.
fn pages_shown(memory: &Memory, start: u64, pages: u64) -> bool
    requires { start + 4096 * pages < 2 ^ 63 }
    ensures { result ≡ pages_shown memory.now.windows.now pages start }
{
    let run = memory.image.len();
    (0..pages).all(|page| {
        find_place(
            memory.windows,
            run,
            Page4K::SPAN,
            start + Page4K::SPAN * page,
        )
        .is_some()
    })
}

// An end past 2^HAW.
fn past_width(haw: u8, area: Area) -> bool
    requires { haw ≤ 52 }
    ensures { result ≡ ltb (2 ^ haw) (area.start + area.size) }
{
    let limit = 1u64 << haw;
    if limit < area.start {
        return true;
    }
    limit - area.start < area.size
}

#[tactic(auto, unfolding(crate::specs::Region::bad_region))]
pub fn bad_region(memory: &Memory, registers: Registers, area: Area) -> bool
    requires { registers_bad registers ≡ false }
    ensures { result ≡ bad_region registers memory.now.windows.now memory.now.image.now area.start area.size }
{
    if (area.start % Page4K::SPAN != 0) | (area.size % Page4K::SPAN != 0) {
        return true;
    }
    if past_width(registers.haw, area) {
        return true;
    }
    if !pages_shown(memory, area.start, area.size / Page4K::SPAN) {
        return true;
    }
    shares_tables(memory, registers, area)
}

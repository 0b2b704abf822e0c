// One level of the first-level walk.
ghost use Rattle.std.specs.Prelude.{Bool, true, false, [], ◌∷◌, ◌++◌, map, ◌≡◌, length, take, ◌+◌, ◌%◌, ◌^◌, ◌<◌, ◌≤◌};
ghost use Rattle.std.specs.Prelude.{if◌then◌else◌};
ghost use Rattle.image.specs.Place.{entry_at};
ghost use Rattle.image.specs.Answers.{memory_of};
ghost use Rattle.flags.specs.Flags.{flag};
ghost use Rattle.first.specs.First.{first_flags};
ghost use Rattle.nested.specs.Answers.{level_of, LevelNames, LevelGrows, LevelReachable};
ghost use Rattle.nested.specs.Pages.{entry_flags, walk_step};
ghost use Rattle.nested.specs.Positions.{entry_over};

use crate::position::{EntryAt, Position, Walk};
use faults::Stop;
use first::{FirstStep, first_step, flag_clear, unfetchable};
use flags::push;
use image::Memory;
use pasid::{PasidEntry, ScalableReason};

// What a level's entry leads to.
#[derive(Clone, Copy)]
pub enum Level {
    // The next table, and how many flags there are then.
    Down(u64, usize),
    // The frame of a page and the entry's level, and how many flags there are then.
    Page(u64, u32, usize),
}

// A flag of the entry at a host address, where it is wanted.
fn push_if(flags: &mut [u64], count: usize, wanted: bool, at: u64, bit: u32) -> usize
    requires { (count < length flags.old) × (at < 2 ^ 60) × (bit < 64) }
    ensures flags_after { take result flags.new ≡ take count flags.old ++ (if wanted then flag at bit ∷ [] else []) }
    ensures upper_bound { (result ≤ count + 1) × (wanted ≡ false → result ≤ count) }
{
    if wanted {
        return push(flags, count, at, bit);
    }
    count
}

// A, D where it is to be set, and EA with EAFE, of the entry at a host address.
fn push_all(flags: &mut [u64], count: usize, entry: PasidEntry, dirty: bool, at: u64) -> usize
    requires { (count + 3 ≤ length flags.old) × (at < 2 ^ 60) }
    ensures flags_after { take result flags.new ≡ take count flags.old ++ map (flag at) (first_flags entry dirty true) }
    ensures upper_bound { (result ≤ count + 3) × (dirty ≡ false → result ≤ count + 2) }
{
    let accessed = push_if(flags, count, true, at, 5);
    let written = push_if(flags, accessed, dirty, at, 6);
    push_if(flags, written, entry.eafe, at, 10)
}

// The flags of an entry, where one of them is still clear. dirty: it is that of a page to be written.
fn push_entry(
    flags: &mut [u64],
    count: usize,
    entry: PasidEntry,
    dirty: bool,
    at: u64,
    e: u64,
) -> usize
    requires { (count + 3 ≤ length flags.old) × (at < 2 ^ 60) }
    ensures flags_after { take result flags.new ≡ take count flags.old ++ entry_flags entry dirty true at e }
    ensures upper_bound { (result ≤ count + 3) × (dirty ≡ false → result ≤ count + 2) }
{
    if flag_clear(entry, dirty, true, e) {
        return push_all(flags, count, entry, dirty, at);
    }
    count
}

// The entry, as it was fetched.
fn level_step(
    walk: Walk,
    level: u32,
    here: EntryAt,
    e: u64,
    flags: &mut [u64],
) -> Result<Level, Stop<ScalableReason>>
    requires { (0 < level) × (here.at < 2 ^ 60) × (here.count + 3 ≤ length flags.old) }
    ensures flags_after { (top : Bool) → level_of result walk.asked.address flags.new ≡ walk_step walk.space.registers walk.space.entry walk.asked.address walk.asked.write level here.at (record { top = top; writable = here.writable; flags = take here.count flags.old }) e }
    ensures level_names { LevelNames result (entry_at here.at) }
    ensures level_reachable { LevelReachable result level }
    ensures level_grows { LevelGrows result (here.count + 2) }
{
    let entry = walk.space.entry;
    let write = walk.asked.write;
    match first_step(
        walk.space.registers,
        entry,
        write,
        here.writable,
        level,
        here.at,
        e,
    )? {
        FirstStep::Down(table) => {
            let used = push_entry(flags, here.count, entry, false, here.at, e);
            Ok(Level::Down(table, used))
        }
        FirstStep::Page(frame, of) => {
            let used = push_entry(flags, here.count, entry, write, here.at, e);
            Ok(Level::Page(frame, of, used))
        }
    }
}

// The entry at a host address, fetched.
pub(crate) fn level_entry(
    memory: &Memory,
    walk: Walk,
    position: Position,
    here: EntryAt,
    flags: &mut [u64],
) -> Result<Level, Stop<ScalableReason>>
    requires { (0 < position.level) × (here.at % 8 ≡ 0) × (here.at < 2 ^ 60) × (here.count + 3 ≤ length flags.old) }
    ensures flags_after { level_of result walk.asked.address flags.new ≡ entry_over walk.space.registers walk.space.entry walk.asked.address walk.asked.write (memory_of memory.now) position.level here.at (record { top = position.top; writable = here.writable; flags = take here.count flags.old }) }
    ensures level_names { LevelNames result (entry_at here.at) }
    ensures level_reachable { LevelReachable result position.level }
    ensures level_grows { LevelGrows result (here.count + 2) }
{
    let offset = here.at % 4096;
    let table = here.at - offset;
    let Ok(e) = memory.table_entry::<u64>(table, offset) else {
        return Err(walk.space.entry.stop(unfetchable(position.top), here.at));
    };
    level_step(walk, position.level, here, e, flags)
}

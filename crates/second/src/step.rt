// What the second-level walk makes of an entry.
ghost use Rattle.std.specs.Prelude.{not, ◌&&◌, ◌||◌, ◌≡◌, ◌++◌, length, take, ◌+◌, ◌%◌, ◌^◌, ◌<◌, ◌≤◌};
ghost use Rattle.image.specs.Bits.{bit};
ghost use Rattle.std.specs.Prelude.{if◌then◌else◌};
ghost use Rattle.image.specs.Place.{entry_at};
ghost use Rattle.image.specs.Answers.{memory_of};
ghost use Rattle.dma.specs.Walk.{place_in};
ghost use Rattle.pasid.specs.Reason.{number_of};
ghost use Rattle.second.specs.Answers.{handed_by, step_of, StepNames, StepReachable, StepGrown};
ghost use Rattle.second.specs.Second.{flag_clear, flags_not_snooped, second_flags, second_step, second_over};

use dma::{Fetch, fetch_entry, is_leaf, page_reserved};
use faults::Stop;
use flags::push;
use image::{Memory, bit, field, in_place};
use pasid::{PasidEntry, ScalableReason, ScalableRegisters};

// What an entry is handed by those above it: whether there are none, their joined rights, R bit 0 and W bit 1, and how many flags are collected.
#[derive(Clone, Copy)]
pub struct Above {
    pub top: bool,
    pub rights: u64,
    pub count: usize,
}

// The rights that a walk needs. Where it needs W, its page is to be written.
#[derive(Clone, Copy)]
pub struct Wanted {
    pub read: bool,
    pub write: bool,
}

// The address space of a PASID table entry, with the registers, by which every walk in it goes. A request makes it once: made for each walk
// it costs instructions.
#[derive(Clone, Copy)]
pub struct Space {
    pub registers: ScalableRegisters,
    pub entry: PasidEntry,
}

// The page that a walk ends with.
#[derive(Clone, Copy)]
pub struct Page {
    pub frame: u64,
    // Of its entry.
    pub level: u32,
    // All entries had W.
    pub writable: bool,
    // How many flags are collected.
    pub count: usize,
}

#[derive(Clone, Copy)]
pub enum SecondStep {
    // The next table, and what is handed on to its entry.
    Down(u64, Above),
    Page(Page),
}

// A flag that a granted request sets is still clear: A, D in the entry of a page that is written.
fn flag_clear(dirty: bool, e: u64) -> bool
    ensures { result ≡ flag_clear dirty e }
{
    let accessed = bit(e, 8);
    let written = bit(e, 9);
    !accessed | (dirty & !written)
}

fn flags_not_snooped(
    registers: ScalableRegisters,
    entry: PasidEntry,
    dirty: bool,
    level: u32,
    e: u64,
) -> bool
    ensures { result ≡ flags_not_snooped registers entry dirty level e }
{
    // The same for all entries of a walk, and asked first.
    if !(entry.slade & !(registers.smpwc & entry.pwsnp)) {
        return false;
    }
    flag_clear(is_leaf(level, e) & dirty, e)
}

// As first's of the same name, with two other reasons: one function for both would be handed all four.
fn unfetchable(top: bool) -> ScalableReason
    ensures { number_of result ≡ (if top then 0x7B else 0x78) }
{
    if top {
        return ScalableReason::SecondLevelTopAccess;
    }
    ScalableReason::SecondLevelAccess
}

// The rights of an entry joined with those above it: both at once.
fn join(rights: u64, e: u64) -> u64
    ensures { (bit result 0 ≡ (bit rights 0 && bit e 0)) × (bit result 1 ≡ (bit rights 1 && bit e 1)) }
{
    rights & e
}

// A right that is wanted lacks: both at once.
fn lacks(wanted: Wanted, e: u64) -> bool
    ensures { result ≡ (wanted.write && not (bit e 1) || wanted.read && not (bit e 0)) }
{
    let need = wanted.read as u64 + 2 * (wanted.write as u64);
    need & e != need
}

// The right that lacks, W before R.
fn denied(wanted: Wanted, e: u64) -> ScalableReason
    ensures { number_of result ≡ (if wanted.write && not (bit e 1) then 0x85 else 0x86) }
{
    let writable = bit(e, 1);
    if wanted.write & !writable {
        return ScalableReason::WriteDenied;
    }
    ScalableReason::ReadDenied
}

// The flags of an entry that is used.
fn collect(
    entry: PasidEntry,
    dirty: bool,
    at: u64,
    e: u64,
    flags: &mut [u64],
    count: usize,
) -> usize
    requires { (at < 2 ^ 60) × (count + 2 ≤ length flags.old) }
    ensures flags_after { take result flags.new ≡ take count flags.old ++ second_flags entry dirty at e }
    ensures lower_bound { (count ≤ result) × (result ≤ count + (if dirty then 2 else 1)) }
{
    if !(entry.slade & flag_clear(dirty, e)) {
        return count;
    }
    let n = push(flags, count, at, 8);
    if dirty {
        return push(flags, n, at, 9);
    }
    n
}

fn second_step(
    space: Space,
    wanted: Wanted,
    above: Above,
    level: u32,
    at: u64,
    e: u64,
    flags: &mut [u64],
) -> Result<SecondStep, Stop<ScalableReason>>
    requires { (0 < level) × (at < 2 ^ 60) × (above.count + 2 ≤ length flags.old) }
    ensures flags_after { step_of result flags.new ≡ second_step space.registers space.entry wanted level at (handed_by above flags.old) e }
    ensures step_names { StepNames result (entry_at at) }
    ensures step_reachable { StepReachable result × StepGrown result above.count }
{
    let rights = join(above.rights, e);
    if field(rights, 1, 0) == 0 {
        return Err(space.entry.stop(ScalableReason::SecondLevelNotPresent, at));
    }
    if page_reserved(space.registers.base, level, e) {
        return Err(space.entry.stop(ScalableReason::SecondLevelReserved, at));
    }
    if flags_not_snooped(space.registers, space.entry, wanted.write, level, e) {
        return Err(space.entry.stop(ScalableReason::FlagsNotSnooped, at));
    }
    if lacks(wanted, e) {
        return Err(space.entry.stop(denied(wanted, e), at));
    }
    // The frame last: so the next table stays in a register of the machine code.
    if is_leaf(level, e) {
        let count = collect(space.entry, wanted.write, at, e, flags, above.count);
        return Ok(SecondStep::Page(Page {
            frame: in_place(e, 51, 12),
            level,
            writable: field(rights, 1, 1) == 1,
            count,
        }));
    }
    let count = collect(space.entry, false, at, e, flags, above.count);
    let below = Above {
        top: false,
        rights,
        count,
    };
    Ok(SecondStep::Down(in_place(e, 51, 12), below))
}

// One level of the walk: below is how many levels come after it.
pub(crate) fn second_entry(
    memory: &Memory,
    space: Space,
    wanted: Wanted,
    address: u64,
    below: u32,
    table: u64,
    above: Above,
    flags: &mut [u64],
) -> Result<SecondStep, Stop<ScalableReason>>
    requires { (below < 5) × (table % 4096 ≡ 0) × (table < 2 ^ 52) × (above.count + 2 ≤ length flags.old) }
    ensures flags_after { step_of result flags.new ≡ second_over space.registers space.entry wanted address (memory_of memory.now) below table (handed_by above flags.old) }
    ensures step_names { StepNames result (entry_at (place_in address table below)) }
    ensures step_reachable { StepReachable result × StepGrown result above.count }
{
    let Fetch { at, found } = fetch_entry(memory, address, below, table);
    let Ok(e) = found else {
        return Err(space.entry.stop(unfetchable(above.top), at));
    };
    second_step(space, wanted, above, below + 1, at, e, flags)
}

// Before any item: refusal 1, TE, the context and the region.
ghost use Rattle.std.specs.Prelude.{false, ◌≡◌, ◌<◌};
ghost use Rattle.dma.specs.Context.{Usable as UsableContext};
ghost use Rattle.registers.specs.Registers.{registers_bad};
ghost use Rattle.builder.specs.Answers.{not_ready_number, readiness_of};
ghost use Rattle.builder.specs.Ready.{sized, top_outside, in_context, readiness, TablesReady, IfReady};

use dma::{Context, find_context};
use image::Memory;
use region::{Area, bad_region};
use registers::{Page4K, Refusal, Registers, SourceId};
use tables::Tree;

// Why no item is taken, by document 02's numbers.
#[derive(Clone, Copy, Debug, PartialEq, Eq)]
pub enum NotReady {
    // TE is off.
    TranslationOff = 1,
    // The source has no context, or one that passes through.
    NoTranslation = 2,
    BadRegion = 3,
    // The tables aren't as built here.
    OtherTables = 4,
    BadBuffers = 5,
}

impl NotReady {
    pub fn number(self) -> u8
        ensures { result ≡ not_ready_number self }
    {
        self as u8
    }
}

#[derive(Clone, Copy, Debug, PartialEq, Eq)]
pub enum Unready {
    Refused(Refusal),
    NotYet(NotReady),
}

fn is_sized(size: u64, copy: u64, marks: u64) -> bool
    ensures { result ≡ sized size copy marks }
{
    (copy == size) & (marks == size / Page4K::SPAN)
}

fn is_top_outside(area: Area, top: u64) -> bool
    ensures { result ≡ top_outside area.start area.size top }
{
    if top < area.start {
        return true;
    }
    area.size <= top - area.start
}

// In a context that was found.
#[tactic(auto, unfolding(crate::specs::Ready::in_context))]
fn ready_in(
    memory: &Memory,
    registers: Registers,
    area: Area,
    copy: u64,
    marks: u64,
    context: Context,
) -> Result<Tree, Unready>
    requires { (registers_bad registers ≡ false) × UsableContext context }
    ensures result_value { readiness_of result ≡ in_context registers memory.now.windows.now memory.now.image.now area.start area.size copy marks context }
    ensures if_ready { IfReady (TablesReady registers copy marks) (readiness_of result) }
{
    if context.translation_type == 2 {
        return Err(Unready::NotYet(NotReady::NoTranslation));
    }
    if bad_region(memory, registers, area) {
        return Err(Unready::NotYet(NotReady::BadRegion));
    }
    if !is_sized(area.size, copy, marks) {
        return Err(Unready::NotYet(NotReady::BadBuffers));
    }
    let top = context.top;
    if is_top_outside(area, top) {
        return Err(Unready::NotYet(NotReady::OtherTables));
    }
    Ok(Tree {
        start: area.start,
        top: top - area.start,
        below: context.levels - 1,
    })
}

#[tactic(auto, unfolding(crate::specs::Ready::readiness))]
pub(crate) fn make_ready(
    memory: &Memory,
    registers: Registers,
    source: SourceId,
    area: Area,
    copy: u64,
    marks: u64,
) -> Result<Tree, Unready>
    ensures result_value { readiness_of result ≡ readiness registers memory.now.windows.now memory.now.image.now area.start area.size copy marks source.id }
    ensures if_ready { IfReady (TablesReady registers copy marks) (readiness_of result) }
{
    if registers.bad() {
        return Err(Unready::Refused(Refusal::BadRegisters));
    }
    if !registers.te {
        return Err(Unready::NotYet(NotReady::TranslationOff));
    }
    let Ok(found) = find_context(memory, registers, source) else {
        return Err(Unready::NotYet(NotReady::NoTranslation));
    };
    ready_in(memory, registers, area, copy, marks, found.context)
}

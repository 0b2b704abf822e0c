// From the root entry to a page or a fault.
ghost use Rattle.std.specs.Prelude.{false, ◌≡◌, length, ◌%◌, ◌≤◌};
ghost use Rattle.image.specs.Place.{entry_at, last_tried, stopped_at};
ghost use Rattle.image.specs.Rules.{run};
ghost use Rattle.image.specs.Answers.{memory_of};
ghost use Rattle.nested.specs.Answers.{pages_of, PagesNames, PagesGrows};
ghost use Rattle.nested.specs.Pages.{Reachable, PagesWalkable};
ghost use Rattle.scalable.specs.Answers.{translation_of, TranslationNames, TranslationReachable};
ghost use Rattle.scalable.specs.Requests.{paged_rules, type_rules, translation_rules, Walkable};

use crate::ScalableRequest;
use crate::lookup::find_pasid_entry;
use dma::overflows;
use faults::Stop;
use first::not_canonical;
use image::Memory;
use nested::{Asked, Reached, Walk, walk_pages};
use pasid::{ScalableReason, ScalableRegisters};
use second::Space;

#[derive(Clone, Copy)]
pub enum Translation {
    // The address itself.
    Through,
    Page(Reached),
}

// 84h or 80h by the address, then the walk.
fn find_pages(
    memory: &Memory,
    walk: Walk,
    at: u64,
    flags: &mut [u64],
) -> Result<Reached, Stop<ScalableReason>>
    requires { PagesWalkable walk.space.entry × (47 ≤ length flags.old) }
    ensures flags_after { pages_of result flags.new ≡ run (paged_rules walk.space.registers walk.asked.address walk.asked.write walk.space.entry) (memory_of memory.now) }
    ensures pages_names { PagesNames result (last_tried (entry_at at) (paged_rules walk.space.registers walk.asked.address walk.asked.write walk.space.entry) (memory_of memory.now)) }
    ensures reachable { Reachable (pages_of result flags.new) × PagesGrows result 47 }
{
    let entry = walk.space.entry;
    let address = walk.asked.address;
    if entry.kind == 2 {
        if overflows(walk.space.registers.base, entry.second_levels, address) {
            return Err(entry.stop(ScalableReason::AddressOverflow, at));
        }
    } else if not_canonical(entry.first_levels, address) {
        return Err(entry.stop(ScalableReason::NotCanonical, at));
    }
    walk_pages(memory, walk, at, flags)
}

// at: the host address of the PASID table entry.
fn translate_in(
    memory: &Memory,
    walk: Walk,
    at: u64,
    flags: &mut [u64],
) -> Result<Translation, Stop<ScalableReason>>
    requires { Walkable walk.space.entry × (47 ≤ length flags.old) }
    ensures flags_after { translation_of result flags.new ≡ run (type_rules walk.space.registers walk.asked.address walk.asked.write walk.space.entry) (memory_of memory.now) }
    ensures translation_names { TranslationNames result (last_tried (entry_at at) (type_rules walk.space.registers walk.asked.address walk.asked.write walk.space.entry) (memory_of memory.now)) }
    ensures translation_reachable { TranslationReachable result }
{
    if walk.space.entry.kind == 4 {
        return Ok(Translation::Through);
    }
    let page = find_pages(memory, walk, at, flags)?;
    Ok(Translation::Page(page))
}

pub(crate) fn translate(
    memory: &Memory,
    registers: ScalableRegisters,
    request: ScalableRequest,
    flags: &mut [u64],
) -> Result<Translation, Stop<ScalableReason>>
    requires { (registers.base.root_table % 4096 ≡ 0) × (registers.base.haw ≤ 52) × (47 ≤ length flags.old) }
    ensures flags_after { translation_of result flags.new ≡ run (translation_rules registers request.address request.write request.pasid request.source.id) (memory_of memory.now) }
    ensures translation_names { TranslationNames result (stopped_at (translation_rules registers request.address request.write request.pasid request.source.id) (memory_of memory.now)) }
    ensures translation_reachable { TranslationReachable result }
{
    let found = find_pasid_entry(memory, registers, request.source, request.pasid)?;
    let space = Space {
        registers,
        entry: found.entry,
    };
    let asked = Asked {
        address: request.address,
        write: request.write,
    };
    translate_in(memory, Walk { space, asked }, found.at, flags)
}

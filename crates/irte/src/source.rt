// The source check of a remapping entry.
ghost use Rattle.std.specs.Prelude.{◌≡◌};
ghost use Rattle.image.specs.Answers.{number16};
ghost use Rattle.irte.specs.Source.{same_source, bus_in_range, source_allowed};

use image::{Entry, Entry16};
use registers::SourceId;

#[tactic(auto, unfolding(image::specs::Bits::bits))]
fn same_source(sq: u64, sid: u16, source: u16) -> bool
    ensures { result ≡ same_source sq sid source }
{
    match sq {
        0 => sid == source,
        1 => (sid / 8 == source / 8) & (sid % 4 == source % 4),
        2 => (sid / 8 == source / 8) & (sid % 2 == source % 2),
        _ => sid / 8 == source / 8,
    }
}

#[tactic(auto, unfolding(image::specs::Bits::bits))]
fn bus_in_range(sid: u16, source: SourceId) -> bool
    ensures { result ≡ bus_in_range sid source.id }
{
    let bus = source.bus() as u16;
    (sid / 256 <= bus) & (bus <= sid % 256)
}

#[tactic(auto, unfolding(crate::specs::Source::source_allowed, image::specs::Bits::bits))]
pub(crate) fn source_allowed(source: SourceId, e: Entry16) -> bool
    ensures { result ≡ source_allowed source.id (number16 e) }
{
    let sid = e.bits(79, 64) as u16;
    match e.bits(83, 82) {
        0 => true,
        1 => same_source(e.bits(81, 80), sid, source.id),
        _ => bus_in_range(sid, source),
    }
}

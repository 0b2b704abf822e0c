// The table builder, for C: a crate of its own, so that its object is one of its own. It goes by the lookup of translation requests, which
// the compiler puts into its caller only where it has one.
#![tactic(auto)]

ghost use Rattle.std.specs.Prelude.{◌≡◌, ◌<◌, length};
ghost use Rattle.builder.specs.Answers.{built_of};
ghost use Rattle.builder.specs.Build.{lent};
ghost use Rattle.galitzaf_builder.specs.Calls.{build_status, build_call};

use builder::{BadItem, BuildError, Unready, build};
use packing::{BAD_REGISTERS, BAD_WINDOWS, OK, malformed, unpack};
use registers::SourceId;

// Plus the reason with no item.
const NOT_READY: u32 = 0xA0;

// Plus the reason against the item.
const ITEM_REFUSED: u32 = 0xB0;

const BAD_ITEMS: u32 = 0x109;

// The status; the index of an item that is refused is put into the lent number.
fn tell(built: Result<(), BuildError>, item: &mut [u64]) -> u32
    requires { 0 < length item.old }
    ensures { (result, item.new) ≡ build_status (built_of built) item.old }
{
    match built {
        Ok(()) => OK,
        Err(BuildError::Before(Unready::Refused(refusal))) => refusal.number() as u32,
        Err(BuildError::Before(Unready::NotYet(reason))) => NOT_READY + reason.number() as u32,
        Err(BuildError::At(BadItem { index, error })) => {
            item[0] = index;
            ITEM_REFUSED + error.number() as u32
        }
    }
}

#[tactic(auto, unfolding(crate::specs::Calls::build_call))]
#[unsafe(no_mangle)]
pub extern "C" fn galitzaf_build(
    registers: &[u8],
    windows: &[u64],
    image: &mut [u8],
    source: u16,
    start: u64,
    size: u64,
    items: &[u64],
    copy: &mut [u8],
    marks: &mut [u8],
    item: &mut [u64],
) -> u32
    ensures { (result, lent image.new copy.new marks.new, item.new) ≡ build_call registers.now windows.now source start size items.now (lent image.old copy.old marks.old) item.old }
{
    if malformed(registers) {
        return BAD_REGISTERS;
    }
    if windows.len() % 3 != 0 {
        return BAD_WINDOWS;
    }
    if items.len() % 4 != 0 {
        return BAD_ITEMS;
    }
    if item.len() != 1 {
        return BAD_ITEMS;
    }
    let built = build(
        unpack(registers),
        windows,
        image,
        SourceId::from(source),
        start,
        size,
        items,
        copy,
        marks,
    );
    tell(built, item)
}

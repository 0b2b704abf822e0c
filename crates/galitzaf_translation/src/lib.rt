// Translation requests of devices with a translation cache, for C: a crate of its own, so that its object is one of its own. They go by the
// lookup of memory requests, which the compiler puts into its caller only where it has one.
#![tactic(auto)]

ghost use Rattle.std.specs.Prelude.{◌≡◌};
ghost use Rattle.image.specs.Place.{no_entry};
ghost use Rattle.translation.specs.Answers.{size_of, outcome_of, entry_of};
ghost use Rattle.translation.specs.Requests.{translated};
ghost use Rattle.packing.specs.Answer.{bytes_of_packed};
ghost use Rattle.packing.specs.Translations.{translation_bytes, translation_call};

use packing::{
    OK, PASSED, Packed, bad_arguments, flag, head, pack_fault, pack_refusal, short, store, unpack,
};
use registers::SourceId;
use translation::{PageSize, Rights, TranslationAnswer, TranslationRequest, translation_request};

const TRANSLATED: u8 = 7;

const EMPTY: u8 = 8;

fn pack_page(frame: u64, size: PageSize, rights: Rights) -> Packed
    ensures { bytes_of_packed result ≡ translation_bytes (translated frame (size_of size) rights) no_entry }
{
    let read = flag(rights.read);
    let write = flag(rights.write);
    Packed {
        head: head(TRANSLATED, read, write, 0, 0),
        low: frame,
        high: size.bytes(),
        last: 0,
    }
}

fn pack_translation(answer: TranslationAnswer) -> Packed
    ensures { bytes_of_packed result ≡ translation_bytes (outcome_of answer) (entry_of answer) }
{
    match answer {
        TranslationAnswer::Passed(address) => Packed {
            head: head(PASSED, 0, 0, 0, 0),
            low: address,
            high: 0,
            last: 0,
        },
        TranslationAnswer::Page(frame, size, rights) => pack_page(frame, size, rights),
        TranslationAnswer::Empty => short(head(EMPTY, 0, 0, 0, 0)),
        TranslationAnswer::Blocked(fault, entry) => pack_fault(fault, entry),
        TranslationAnswer::Refused(number) => pack_refusal(number),
    }
}

#[unsafe(no_mangle)]
pub extern "C" fn galitzaf_translation_request(
    registers: &[u8],
    windows: &[u64],
    image: &[u8],
    source: u16,
    address: u64,
    answer: &mut [u8],
) -> u32
    ensures { (result, answer.new) ≡ translation_call registers.now windows.now image.now source address answer.old }
{
    let status = bad_arguments(registers, windows, answer.len());
    if status != OK {
        return status;
    }
    let request = TranslationRequest {
        source: SourceId::from(source),
        address,
    };
    store(
        answer,
        pack_translation(translation_request(unpack(registers), windows, image, request)),
    );
    OK
}

// What is mapped for a source, for C: a crate of its own, so that its object is one of its own. It goes by the lookup of translation requests, which
// the compiler puts into its caller only where it has one.
#![tactic(auto)]

ghost use Rattle.std.specs.Prelude.{◌≡◌};
ghost use Rattle.mapping.specs.Answers.{told_as};
ghost use Rattle.galitzaf_listing.specs.Listing.{listing_status, Few, list_call};

use mapping::{Listing, list_spans};
use packing::{BAD_REGISTERS, BAD_WINDOWS, malformed, unpack};
use registers::{Refusal, SourceId};

// Plus a fault's reason.
const LISTING_FAULT: u32 = 0x80;

const LISTING_PASSED: u32 = 0x90;

// Plus the count of spans.
const LISTED: u32 = 0x2000;

const LISTED_MORE: u32 = 0x6000;

fn listing_status(listing: Result<Listing, Refusal>) -> u32
    requires { Few (told_as listing) }
    ensures { result ≡ listing_status (told_as listing) }
{
    match listing {
        Ok(Listing::Passed) => LISTING_PASSED,
        Ok(Listing::Fault(reason)) => LISTING_FAULT + reason.number() as u32,
        Ok(Listing::Spans(count, more)) => {
            let listed = if more { LISTED_MORE } else { LISTED };
            listed + count as u32
        }
        Err(refusal) => refusal.number() as u32,
    }
}

#[unsafe(no_mangle)]
pub extern "C" fn galitzaf_list_spans(
    registers: &[u8],
    windows: &[u64],
    image: &[u8],
    source: u16,
    known: &mut [u64],
    spans: &mut [u64],
) -> u32
    ensures { (result, known.new, spans.new) ≡ list_call registers.now windows.now image.now source known.old spans.old }
{
    if malformed(registers) {
        return BAD_REGISTERS;
    }
    if windows.len() % 3 != 0 {
        return BAD_WINDOWS;
    }
    let asked = SourceId::from(source);
    let listing = list_spans(unpack(registers), windows, image, asked, known, spans);
    listing_status(listing)
}

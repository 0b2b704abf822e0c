// Memory requests through a cache of translations, whose state is lent, and its invalidations, for C: a crate of its own, so that its
// object is one of its own. A miss goes by the lookup and the walk of memory requests, which the compiler puts into their callers only where
// they have one.
#![tactic(auto)]

ghost use Rattle.std.specs.Prelude.{◌≡◌};
ghost use Rattle.galitzaf_cache.specs.Caches.{cached_call, invalidate_call, invalidate_domain_call};

use cache::{cached_request, invalidate_all, invalidate_domain};
use dma::MemoryRequest;
use packing::{
    BAD_ANSWER, BAD_KIND, BAD_REGISTERS, BAD_WINDOWS, OK, malformed, store_memory, unpack,
};
use places::WORDS;
use registers::SourceId;

// Not as many numbers as a cache has.
const BAD_CACHE: u32 = 0x108;

#[unsafe(no_mangle)]
pub extern "C" fn galitzaf_cached_request(
    registers: &[u8],
    windows: &[u64],
    image: &[u8],
    cache: &mut [u64],
    source: u16,
    address: u64,
    write: u8,
    answer: &mut [u8],
) -> u32
    ensures { (result, cache.new, answer.new) ≡ cached_call registers.now windows.now image.now cache.old source address write answer.old }
{
    if malformed(registers) {
        return BAD_REGISTERS;
    }
    if windows.len() % 3 != 0 {
        return BAD_WINDOWS;
    }
    if cache.len() != WORDS {
        return BAD_CACHE;
    }
    if answer.len() != 32 {
        return BAD_ANSWER;
    }
    if 1 < write {
        return BAD_KIND;
    }
    let request = MemoryRequest {
        source: SourceId::from(source),
        address,
        write: write == 1,
    };
    store_memory(
        answer,
        cached_request(unpack(registers), windows, image, cache, request),
    );
    OK
}

// It makes an empty cache of any numbers.
#[unsafe(no_mangle)]
pub extern "C" fn galitzaf_invalidate_all(cache: &mut [u64]) -> u32
    ensures { (result, cache.new) ≡ invalidate_call cache.old }
{
    if cache.len() != WORDS {
        return BAD_CACHE;
    }
    invalidate_all(cache);
    OK
}

#[unsafe(no_mangle)]
pub extern "C" fn galitzaf_invalidate_domain(cache: &mut [u64], domain: u16) -> u32
    ensures { (result, cache.new) ≡ invalidate_domain_call cache.old domain }
{
    if cache.len() != WORDS {
        return BAD_CACHE;
    }
    invalidate_domain(cache, domain);
    OK
}

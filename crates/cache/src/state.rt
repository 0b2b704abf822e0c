// What a lent state answers and takes in.
ghost use Rattle.std.specs.Prelude.{◌<◌, ◌≤◌, ◌≡◌, length, MatchOption, Ok};
ghost use Rattle.dma.specs.Answers.{translation_of};
ghost use Rattle.dma.specs.Translation.{leaf, Reachable};
ghost use Rattle.places.specs.Layout.{words};
ghost use Rattle.cache.specs.Numbers.{caches, newest, page_address, held_address, state_kept};

use crate::keys::{key, large_key, medium_key, small_key};
use dma::{MemoryRequest, Translation, meets_interrupt_range};
use places::{WORDS, age_of_key, hold};

fn caches(state: &[u64], request: MemoryRequest) -> bool
    ensures { result ≡ caches state.now request }
{
    (state.len() == WORDS) & (request.address < 0x200_0000_0000_0000)
}

// The age of the newest place that fits. The 64 that stands for no place is older than any, so the least of three ages needs no other test.
pub(crate) fn newest(state: &[u64], request: MemoryRequest) -> Option<u64>
    ensures { MatchOption result (64 ≤ newest state.now request) (λ age. (age ≡ newest state.now request) × (age < 64)) }
{
    if !caches(state, request) {
        return None;
    }
    let small = small_key(request);
    let medium = medium_key(request, small);
    let large = large_key(request, small);
    let age = age_of_key(state, small)
        .min(age_of_key(state, medium))
        .min(age_of_key(state, large));
    (age < 64).then_some(age)
}

// A frame, and the address's low bits by the level of a key.
fn page_address(key: u64, frame: u64, address: u64) -> u64
    ensures { result ≡ page_address key frame address }
{
    frame % 0x10_0000_0000_0000 + address % (1u64 << (3 + 9 * (key >> 62)))
}

// The host address that the place of an age gives.
pub(crate) fn held_address(state: &[u64], age: u64, address: u64) -> u64
    requires { (length state.now ≡ words) × (age < 64) }
    ensures { result ≡ held_address state.now age address }
{
    let place = ((state[0] % 64 + age) % 64) as usize;
    page_address(state[8 + place], state[72 + place], address)
}

// Holds a page that the walk ended with, where it is granted.
fn keep_page(state: &mut [u64], request: MemoryRequest, frame: u64, level: u32, domain: u16)
    requires { Reachable (leaf frame level) }
    ensures { state.new ≡ state_kept state.old request (leaf frame level) domain }
{
    if meets_interrupt_range(level, frame) {
        return;
    }
    if !caches(state, request) {
        return;
    }
    hold(state, key(request, level), frame, domain as u64);
}

pub(crate) fn keep(state: &mut [u64], request: MemoryRequest, translated: Translation, domain: u16)
    requires { Reachable (translation_of (Ok translated)) }
    ensures { state.new ≡ state_kept state.old request (translation_of (Ok translated)) domain }
{
    if let Translation::Leaf(frame, level) = translated {
        keep_page(state, request, frame, level, domain);
    }
}

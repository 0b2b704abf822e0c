// The places of a cache of 64 translations, in lent numbers: a ring of places, newest first, and chains of places by a hash of
// their keys. Which number is what stands in specs/Layout.antt.
#![tactic(auto)]

ghost use Rattle.std.specs.Prelude.{◌<◌, ◌≡◌, length, replicate};
ghost use Rattle.places.specs.Layout.{words, head_of, bucket_of};
ghost use Rattle.places.specs.Chain.{first_age, age_of_key};
ghost use Rattle.places.specs.Changes.{unless, released, linked, filled, holding, resettled, sifted};

// So many words has a state.
pub const WORDS: usize = 776;

// Bits 31:23 of a product.
#[tactic(auto, unfolding(crate::specs::Layout::bucket_of))]
fn bucket_of(key: u64) -> usize
    ensures value { result ≡ bucket_of key }
    ensures upper_bound { result < 512 }
{
    let folded = key % 0x1_0000_0000 + (key >> 32);
    ((folded * 0x4F1B_BCDD) >> 23) as usize % 512
}

// The age of the newest place with this key, 64 where there is none. No Option: 64 is older than any place, so that the least of several
// ages is told with no test for a missing one (`newest` of cache, whose answer is an Option).
fn first_age(state: &[u64], key: u64) -> u64
    requires { length state.now ≡ words }
    ensures { result ≡ first_age state.now key }
{
    let head = state[0] % 64;
    let mut place = state[264 + bucket_of(key)];
    let mut least: u64 = 0;
    // A while: it follows the links, which a lent state holds, and no counter says how many there are.
    while place < 64 {
        let age = (place + 64 - head) % 64;
        if age < least {
            return 64;
        }
        if state[8 + place as usize] == key {
            return age;
        }
        least = age + 1;
        place = state[200 + place as usize];
    }
    64
}

// The same, where a page of the key's level can be held at all.
#[tactic(auto, unfolding(crate::specs::Chain::age_of_key))]
pub fn age_of_key(state: &[u64], key: u64) -> u64
    requires { length state.now ≡ words }
    ensures { result ≡ age_of_key state.now key }
{
    if state[4 + (key >> 62) as usize] == 0 {
        return 64;
    }
    first_age(state, key)
}

fn unless(place: u64, newest: u64) -> u64
    ensures { result ≡ unless place newest }
{
    if newest == place { 64 } else { newest }
}

// Its bucket forgets a place, if it is the newest there: all behind it are older, and gone.
#[tactic(auto, unfolding(crate::specs::Changes::released))]
fn release(state: &mut [u64], place: usize)
    requires { (length state.old ≡ words) × (place < 64) }
    ensures { state.new ≡ released state.old place }
{
    let bucket = 264 + bucket_of(state[8 + place]);
    let newest = unless(place as u64, state[bucket]);
    state[bucket] = newest;
}

#[tactic(auto, unfolding(crate::specs::Changes::linked))]
fn link(state: &mut [u64], key: u64, place: usize)
    requires { (length state.old ≡ words) × (place < 64) }
    ensures { state.new ≡ linked state.old key place }
{
    let bucket = 264 + bucket_of(key);
    let older = state[bucket];
    state[200 + place] = older;
    state[bucket] = place as u64;
}

#[tactic(auto, unfolding(crate::specs::Changes::filled))]
fn fill(state: &mut [u64], key: u64, frame: u64, domain: u64, place: usize)
    requires { (length state.old ≡ words) × (place < 64) }
    ensures { state.new ≡ filled state.old key frame domain place }
{
    state[8 + place] = key;
    state[72 + place] = frame;
    state[136 + place] = domain;
    state[4 + (key >> 62) as usize] = 1;
    state[0] = place as u64;
}

// Holds one translation more, as the newest: a 65th takes the oldest one's place.
pub fn hold(state: &mut [u64], key: u64, frame: u64, domain: u64)
    requires { length state.old ≡ words }
    ensures { state.new ≡ holding state.old key frame domain }
{
    let place = ((state[0] % 64 + 63) % 64) as usize;
    release(state, place);
    link(state, key, place);
    fill(state, key, frame, domain, place);
}

// Frees a place, and holds what was there as the newest where it is of another domain.
fn resettle(state: &mut [u64], domain: u64, place: usize)
    requires { (length state.old ≡ words) × (place < 64) }
    ensures { state.new ≡ resettled state.old domain place }
{
    let key = state[8 + place];
    let frame = state[72 + place];
    let its = state[136 + place];
    state[8 + place] = 0;
    if (key == 0) | (its == domain) {
        return;
    }
    hold(state, key, frame, its);
}

// Takes out all of a domain; the others stay in their order.
pub fn sift(state: &mut [u64], domain: u64)
    requires { length state.old ≡ words }
    ensures { state.new ≡ sifted domain (head_of state.old) 64 state.old }
{
    let newest = (state[0] % 64) as usize;
    for n in (0..64).rev() {
        resettle(state, domain, (newest + n) % 64);
    }
}

// All zero: nothing is held.
pub fn clear(state: &mut [u64])
    ensures { state.new ≡ replicate (length state.old) 0 }
{
    state.fill(0);
}

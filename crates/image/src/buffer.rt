// A plain run of bytes, byte n at place n: the buffers of the C interface and of the recorder.
ghost use Rattle.std.specs.Prelude.{◌≡◌, ◌+◌, ◌≤◌, ◌++◌, length, take, drop};
ghost use Rattle.image.specs.Bytes.{bytes_of};
ghost use Rattle.image.specs.Memory.{word_at, of_image, entry, on_fetch, with_word};
ghost use Rattle.image.specs.Answers.{fetched8, missed8};

use crate::Missing;

// The number in the 8 bytes from an index, lowest byte first.
pub fn word(image: &[u8], at: usize) -> u64
    requires { at + 8 ≤ length image.now }
    ensures { result ≡ word_at image.now at }
{
    u64::from_le_bytes(image[at..at + 8].try_into().unwrap())
}

pub fn fetch8(image: &[u8], at: u64) -> Result<u64, Missing>
    ensures result_value { fetched8 result ≡ entry 1 (of_image image.now) at }
    ensures at_value { missed8 result at ≡ at }
{
    if image.len() < 8 {
        return Err(Missing { at });
    }
    if ((image.len() - 8) as u64) < at {
        return Err(Missing { at });
    }
    Ok(word(image, at as usize))
}

// The word of a buffer at a place; 0 where it doesn't lie whole in it.
pub fn word_or_zero(buffer: &[u8], at: u64) -> u64
    ensures { result ≡ on_fetch (entry 1 (of_image buffer.now) at) 0 (λ w. w) }
{
    fetch8(buffer, at).unwrap_or(0)
}

// A word into the 8 bytes from an index, lowest byte first.
fn store_word(image: &mut [u8], at: usize, word: u64)
    requires { at + 8 ≤ length image.old }
    ensures { image.new ≡ take at image.old ++ bytes_of 8 word ++ drop (at + 8) image.old }
{
    image[at..at + 8].copy_from_slice(&word.to_le_bytes());
}

// A word into the 8 bytes from an address; nothing is written where the image doesn't hold them all.
pub fn store8(image: &mut [u8], at: u64, word: u64)
    ensures { image.new ≡ with_word image.old at word }
{
    if image.len() < 8 {
        return;
    }
    if ((image.len() - 8) as u64) < at {
        return;
    }
    store_word(image, at as usize, word);
}

// A block of the trace: 512 bytes with a mark, a count, a number, entries, zeros and a sum.
#![tactic(auto)]

ghost use Rattle.std.specs.Prelude.{◌≡◌, ◌≤◌, ◌<◌, length};
ghost use Rattle.image.specs.Bytes.{little_endian};
ghost use Rattle.blocks.specs.Block.{headed, framed, zeros, sum_of};

mod writing;

pub use writing::finish;

// The sum over bytes 0 to 507 of byte times (place + 1).
pub(crate) fn sum(block: &[u8]) -> u64
    requires { 508 ≤ length block.now }
    ensures { result ≡ sum_of block.now }
{
    let mut sum: u64 = 0;
    for (i, byte) in block[..508].iter().enumerate() {
        sum += u64::from(*byte) * (i as u64 + 1);
    }
    sum
}

fn blank(bytes: &[u8]) -> bool
    ensures { result ≡ zeros bytes.now }
{
    // All are looked at: the compiler takes many at once, where `all` would stop at the first.
    bytes.iter().fold(true, |blank, byte| blank & (*byte == 0))
}

// The number that up to six bytes spell, lowest first.
fn spelled(bytes: &[u8]) -> u64
    requires { length bytes.now ≤ 6 }
    ensures { result ≡ little_endian bytes.now }
{
    let mut value: u64 = 0;
    for byte in bytes.iter().rev() {
        value = u64::from(*byte) + 256 * value;
    }
    value
}

// Mark, count and number.
#[tactic(auto, unfolding(crate::specs::Block::headed))]
fn is_headed(block: &[u8], place: u64) -> bool
    requires { length block.now ≡ 512 }
    ensures { result ≡ headed block.now place }
{
    let mark = block[0];
    let count = block[1];
    let number = spelled(&block[2..8]);
    (mark == 0x56) & (1 <= count) & (count <= 15) & (number == place)
}

// A block's layout but for that of its entries; a short block has none.
#[tactic(auto, unfolding(crate::specs::Block::framed))]
pub fn is_framed(block: &[u8], place: u64) -> bool
    ensures { result ≡ framed block.now place }
{
    if block.len() != 512 {
        return false;
    }
    if !is_headed(block, place) {
        return false;
    }
    let from = 8 + 32 * block[1] as usize;
    if !blank(&block[from..508]) {
        return false;
    }
    spelled(&block[508..512]) == sum(block)
}

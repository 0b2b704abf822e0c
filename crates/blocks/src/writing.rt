// A buffer with entries in it made a block.
ghost use Rattle.std.specs.Prelude.{◌≡◌, ◌≤◌, length};
ghost use Rattle.blocks.specs.Written.{block_bytes, held_in, finished};

use crate::sum;

// The bytes behind the entries are cleared of what an earlier block left there.
fn fill(buffer: &mut [u8], number: u64, count: u8)
    requires { (count ≤ 15) × (length buffer.old ≡ 512) }
    ensures { buffer.new ≡ block_bytes number count (held_in buffer.old count) }
{
    let used = 8 + 32 * count as usize;
    buffer[used..508].fill(0);
    buffer[0] = 0x56;
    buffer[1] = count;
    buffer[2..8].copy_from_slice(&number.to_le_bytes()[..6]);
    let sum = sum(buffer);
    buffer[508..512].copy_from_slice(&sum.to_le_bytes()[..4]);
}

#[tactic(auto, unfolding(crate::specs::Written::finished))]
pub fn finish(buffer: &mut [u8], number: u64, count: u8)
    ensures { buffer.new ≡ finished buffer.old number count }
{
    if buffer.len() != 512 {
        return;
    }
    if 15 < count {
        return;
    }
    fill(buffer, number, count);
}

// What entries have in common.
ghost use Rattle.std.specs.Prelude.{◌≡◌, ◌<◌};
ghost use Rattle.image.specs.Bits.{bit, in_place};
ghost use Rattle.image.specs.Answers.{number16};
ghost use Rattle.dma.specs.Walk.{offset_in};

use image::{Entry, Entry16, in_place};
use registers::Page4K;

pub(crate) fn present(e: Entry16) -> bool
    ensures { result ≡ bit (number16 e) 0 }
{
    e.bit(0)
}

// The address of the table that the entry leads to.
pub fn table_address(e: Entry16) -> u64
    ensures { result ≡ in_place (number16 e) 63 12 }
{
    in_place(e.low, 63, 12)
}

// Where in its table the page entry for an address stands: below is how many levels come after it.
pub fn entry_offset(address: u64, below: u32) -> u64
    requires { below < 5 }
    ensures { (result ≡ offset_in address below) × (result < 4096) }
{
    8 * ((address >> (Page4K::SHIFT + 9 * below)) % 512)
}

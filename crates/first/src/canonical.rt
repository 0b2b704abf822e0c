// The input address of the first level.
ghost use Rattle.std.specs.Prelude.{◌≡◌, ◌≤◌};
ghost use Rattle.first.specs.First.{not_canonical};

use image::field;
use registers::Page4K;

// Bits 63:N are not all equal to bit N-1, N the width that the levels give: 48 or 57.
pub fn not_canonical(levels: u32, address: u64) -> bool
    requires { levels ≤ 5 }
    ensures { result ≡ not_canonical levels address }
{
    let width = Page4K::SHIFT + 9 * levels;
    let above = field(address, 63, width);
    if field(address, width - 1, width - 1) == 1 {
        return above != (1u64 << (64 - width)) - 1;
    }
    above != 0
}

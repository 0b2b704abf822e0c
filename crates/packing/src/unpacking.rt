// The registers' 24 bytes.
ghost use Rattle.std.specs.Prelude.{◌≡◌, false};
ghost use Rattle.packing.specs.Registers.{malformed_registers, unpacked};

use image::{bit, field, word_or_zero};
use registers::Registers;

pub fn malformed(registers: &[u8]) -> bool
    ensures { result ≡ malformed_registers registers.now }
{
    if registers.len() != 24 {
        return true;
    }
    let head = word_or_zero(registers, 0);
    if field(head, 23, 22) != 0 {
        return true;
    }
    if field(head, 31, 28) != 0 {
        return true;
    }
    field(head, 63, 40) != 0
}

pub fn unpack(registers: &[u8]) -> Registers
    requires { malformed_registers registers.now ≡ false }
    ensures { result ≡ unpacked registers.now }
{
    let head = word_or_zero(registers, 0);
    Registers {
        haw: field(head, 7, 0) as u8,
        mgaw: field(head, 15, 8) as u8,
        levels3: bit(head, 16),
        levels4: bit(head, 17),
        levels5: bit(head, 18),
        pages_2m: bit(head, 19),
        pages_1g: bit(head, 20),
        posting: bit(head, 21),
        root_table: word_or_zero(registers, 8),
        interrupt_table: word_or_zero(registers, 16),
        s: field(head, 39, 32) as u8,
        te: bit(head, 24),
        ire: bit(head, 25),
        eime: bit(head, 26),
        cfis: bit(head, 27),
    }
}

// Powers of two, by a shift.
ghost use Rattle.std.specs.Prelude.{◌≡◌, ◌^◌, leb};

// The address does not fit in n bits.
pub fn at_or_above_power(address: u64, n: u32) -> bool
    ensures { result ≡ leb (2 ^ n) address }
{
    if n < 64 { address >> n != 0 } else { false }
}

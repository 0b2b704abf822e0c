// Records as bytes: a slot is 16 bytes of a buffer.
ghost use Rattle.std.specs.Prelude.{◌≡◌, [], ◌∷◌, ◌+◌, ◌*◌, ◌≤◌, length};
ghost use Rattle.image.specs.Bytes.{spell};
ghost use Rattle.faults.specs.Slots.{record_at, with_record, standing, clear127};

use image::store8;

// A record of two words into its slot.
pub(crate) fn write_record(buffer: &mut [u8], slot: usize, low: u64, high: u64)
    requires { 16 * slot + 16 ≤ length buffer.old }
    ensures { buffer.new ≡ with_record buffer.old slot (spell (low ∷ high ∷ [])) }
{
    let at = 16 * slot as u64;
    store8(buffer, at, low);
    store8(buffer, at + 8, high);
}

// Whether a record stands in a slot: bit 127 is the top bit of its last byte.
pub(crate) fn is_standing(buffer: &[u8], slot: usize) -> bool
    requires { 16 * slot + 16 ≤ length buffer.now }
    ensures { result ≡ standing buffer.now slot }
{
    128 <= buffer[16 * slot + 15]
}

// Clears bit 127 of the record in a slot.
pub(crate) fn clear_record(buffer: &mut [u8], slot: usize)
    requires { 16 * slot + 16 ≤ length buffer.old }
    ensures { buffer.new ≡ with_record buffer.old slot (clear127 (record_at buffer.old slot)) }
{
    buffer[16 * slot + 15] = buffer[16 * slot + 15] % 128;
}

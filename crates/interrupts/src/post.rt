// What a post writes: two bytes at most.
ghost use Rattle.std.specs.Prelude.{false, ◌≡◌, ℕ, ◌+◌, ◌/◌, ◌%◌, ◌<◌, length};
ghost use Rattle.image.specs.Windows.{windows_of, here, spot_in, bad_windows};
ghost use Rattle.interrupts.specs.Answers.{due_of};
ghost use Rattle.interrupts.specs.Interrupts as rules;
ghost use Rattle.interrupts.specs.Post.{set_bit, interrupt_written};

use crate::answer::Posted;
use image::place64;

// ON's bit number in a descriptor.
const ON: usize = 256;

// A bit of the descriptor that stands at a place of the run.
fn set_bit(image: &mut [u8], at: usize, place: usize)
    requires { at + place / 8 < length image.old }
    ensures { image.new ≡ set_bit at place image.old }
{
    let byte = at + place / 8;
    image[byte] = image[byte] | 1u8 << (place % 8);
}

pub(crate) fn write_post(windows: &[u64], image: &mut [u8], posted: Posted)
    requires { (bad_windows windows.now (length image.old) ≡ false)
        × ((place : ℕ) × (left : ℕ) × (spot_in (windows_of windows.now) 64 posted.descriptor ≡ here place left))
        × (posted.descriptor % 64 ≡ 0) }
    ensures { image.new ≡ interrupt_written windows.now (rules.posted posted.descriptor posted.vector (due_of posted.notification)) image.old }
{
    let at = place64(windows, image.len(), posted.descriptor);
    set_bit(image, at, posted.vector as usize);
    if posted.notification.is_some() {
        set_bit(image, at, ON);
    }
}

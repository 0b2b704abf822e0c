// A row of meters, lent together and changed in place.
ghost use Rattle.std.specs.Prelude.{◌≡◌};
ghost use Rattle.meter.specs.Row.{tick_row, reset_row};

use crate::check::{fits, one_per_meter};
use crate::{Meter, byte, clear, tick};

// All are looked at before the first is ticked, so that a refusal leaves row and bytes as they came.
pub fn tick_row(row: &mut [Meter], counts: &[u32], bytes: &mut [u8]) -> bool
    ensures { (result, row.new, bytes.new) ≡ tick_row row.old counts.now bytes.old }
{
    if !one_per_meter(row.len(), counts.len(), bytes.len()) {
        return false;
    }
    if !row
        .iter()
        .zip(counts)
        .all(|(meter, count)| fits(*meter, *count))
    {
        return false;
    }
    for (i, meter) in row.iter_mut().enumerate() {
        let ticked = tick(*meter, counts[i]);
        *meter = ticked;
        bytes[i] = byte(ticked);
    }
    true
}

pub fn reset_row(row: &mut [Meter])
    ensures { row.new ≡ reset_row row.old }
{
    for meter in row.iter_mut() {
        *meter = clear(*meter);
    }
}

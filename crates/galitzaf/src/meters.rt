// A row of meters, an array for each part of a meter: C could write a kind into a `Meter` that is none of the three.
ghost use Rattle.std.specs.Prelude.{◌≡◌, not, ◌||◌, ltb, length};
ghost use Rattle.meter.specs.Refused.{some, bad_count, bad_meter};
ghost use Rattle.galitzaf.specs.Meters.{gate_of, meter_of, row_of, malformed_meters, tick_meters_call, reset_meters_call};

use meter::{Gate, Meter, byte, fits, one_per_meter, tick};
use packing::{BAD_METERS, METERS_REFUSED, OK};

fn gate(kind: u8, low: f64, high: f64) -> Gate
    ensures { result ≡ gate_of kind low high }
{
    match kind {
        0 => Gate::Off,
        1 => Gate::Above(high),
        _ => Gate::Outside(low, high),
    }
}

fn meter(kind: u8, low: f64, high: f64, load: f64) -> Meter
    ensures { result ≡ meter_of kind low high load }
{
    Meter {
        load,
        gate: gate(kind, low, high),
    }
}

fn unknown_kind(kinds: &[u8]) -> bool
    ensures { result ≡ some (λ kind. ltb 2 kind) kinds.now }
{
    // All are looked at: the compiler takes many at once, where `any` would stop at the first.
    kinds
        .iter()
        .fold(false, |unknown, kind| unknown | (2 < *kind))
}

fn malformed_row(kinds: &[u8], lows: &[f64], highs: &[f64], loads: &[f64]) -> bool
    ensures { result ≡ malformed_meters kinds.now lows.now highs.now loads.now }
{
    let meters = loads.len();
    !((kinds.len() == meters) & (lows.len() == meters) & (highs.len() == meters))
        | unknown_kind(kinds)
}

fn all_fit(kinds: &[u8], lows: &[f64], highs: &[f64], loads: &[f64], counts: &[u32]) -> bool
    requires { (length kinds.now ≡ length loads.now) × (length lows.now ≡ length loads.now) × (length highs.now ≡ length loads.now) × (length counts.now ≡ length loads.now) }
    ensures { result ≡ not (some bad_count counts.now || some bad_meter (row_of kinds.now lows.now highs.now loads.now)) }
{
    let mut good = true;
    // All are looked at: with `all`, which stops at the first that doesn't fit, a tick of a good row took longer.
    for i in 0..loads.len() {
        good &= fits(meter(kinds[i], lows[i], highs[i], loads[i]), counts[i]);
    }
    good
}

#[unsafe(no_mangle)]
pub extern "C" fn galitzaf_tick_meters(
    kinds: &[u8],
    lows: &[f64],
    highs: &[f64],
    loads: &mut [f64],
    counts: &[u32],
    bytes: &mut [u8],
) -> u32
    ensures { (result, loads.new, bytes.new) ≡ tick_meters_call kinds.now lows.now highs.now loads.old counts.now bytes.old }
{
    if malformed_row(kinds, lows, highs, loads) {
        return BAD_METERS;
    }
    if !one_per_meter(loads.len(), counts.len(), bytes.len()) {
        return METERS_REFUSED;
    }
    if !all_fit(kinds, lows, highs, loads, counts) {
        return METERS_REFUSED;
    }
    for (i, load) in loads.iter_mut().enumerate() {
        let ticked = tick(meter(kinds[i], lows[i], highs[i], *load), counts[i]);
        *load = ticked.load;
        bytes[i] = byte(ticked);
    }
    OK
}

#[unsafe(no_mangle)]
pub extern "C" fn galitzaf_reset_meters(loads: &mut [f64]) -> u32
    ensures { (result, loads.new) ≡ reset_meters_call loads.old }
{
    loads.fill(0.0);
    OK
}

// What a tick of a row refuses, for one meter and its count.
ghost use Rattle.std.specs.Prelude.{◌≡◌, not, ◌&&◌, ◌||◌, eqb};
ghost use Rattle.meter.specs.Refused.{bad_count, bad_load, bad_limit, bad_gate, bad_meter};

use crate::{Gate, Meter};

// A NaN is in no order with anything, so each test that has to pass is written out.
fn bad_load(load: f64) -> bool
    ensures { result ≡ bad_load load }
{
    !((0.0 <= load) & (load <= 131070.0))
}

// Not finite, or below zero.
#[tactic(auto, using(crate::proofs::Finite::same_finite))]
fn bad_limit(limit: f64) -> bool
    ensures { result ≡ bad_limit limit }
{
    !(limit.is_finite() & (0.0 <= limit))
}

fn bad_gate(gate: Gate) -> bool
    ensures { result ≡ bad_gate gate }
{
    match gate {
        Gate::Off => false,
        Gate::Above(limit) => bad_limit(limit),
        Gate::Outside(low, high) => bad_limit(low) | bad_limit(high) | (high < low),
    }
}

fn bad_meter(meter: Meter) -> bool
    ensures { result ≡ bad_meter meter }
{
    bad_load(meter.load) | bad_gate(meter.gate)
}

pub fn fits(meter: Meter, count: u32) -> bool
    ensures { result ≡ not (bad_count count || bad_meter meter) }
{
    !((65535 < count) | bad_meter(meter))
}

pub fn one_per_meter(meters: usize, counts: usize, bytes: usize) -> bool
    ensures { result ≡ (eqb counts meters && eqb bytes meters) }
{
    (counts == meters) & (bytes == meters)
}

// A storm meter: a load that halves on each tick, and a gate that the load may trip.
#![tactic(auto)]

ghost use Rattle.std.specs.Prelude.{◌≡◌};
ghost use Rattle.meter.specs.Meter.{tick_load, ticked, trips_of, meter_byte, cleared};

mod check;
mod row;

pub use check::{fits, one_per_meter};
pub use row::{reset_row, tick_row};

#[derive(Clone, Copy)]
pub enum Gate {
    Off,
    Above(f64),
    Outside(f64, f64),
}

#[derive(Clone, Copy)]
pub struct Meter {
    pub load: f64,
    pub gate: Gate,
}

// The load is halved, then the count is added.
fn tick_load(load: f64, count: u32) -> f64
    ensures { result ≡ tick_load load count }
{
    load * 0.5 + f64::from(count)
}

pub fn tick(meter: Meter, count: u32) -> Meter
    ensures { result ≡ ticked meter count }
{
    Meter {
        load: tick_load(meter.load, count),
        ..meter
    }
}

// Strictly.
pub fn trips(gate: Gate, load: f64) -> bool
    ensures { result ≡ trips_of gate load }
{
    match gate {
        Gate::Off => false,
        Gate::Above(limit) => limit < load,
        Gate::Outside(low, high) => (load < low) | (high < load),
    }
}

// What becomes of the meter's lent byte.
pub fn byte(meter: Meter) -> u8
    ensures { result ≡ meter_byte meter }
{
    u8::from(trips(meter.gate, meter.load))
}

pub fn clear(meter: Meter) -> Meter
    ensures { result ≡ cleared meter }
{
    Meter { load: 0.0, ..meter }
}

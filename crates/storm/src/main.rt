// Three devices are counted in ticks. One of them storms, is tripped and masked, and is let back once it is quiet: a row of
// meters, lent and ticked in place.
#![tactic(auto)]

use meter::{Gate, Meter, reset_row, tick_row};
use std::{fmt, io};

// What a device raised in a tick, and whether that tripped its gate.
#[derive(Clone, Copy)]
struct Reading {
    count: u32,
    tripped: bool,
}

impl fmt::Display for Reading {
    fn fmt<W: fmt::Write>(&self, f: &mut fmt::Formatter<W>) -> fmt::Result {
        if self.tripped {
            write!(f, "{} (tripped)", self.count)
        } else {
            write!(f, "{}", self.count)
        }
    }
}

// The camera's interrupts are never too many. The disk storms above 2000. The network has a band: it storms above 3000, and
// is silent below 1.
fn devices() -> [Meter; 3] {
    let camera = Meter {
        load: 7.0,
        gate: Gate::Off,
    };
    let disk = Meter {
        load: 7.0,
        gate: Gate::Above(2000.0),
    };
    let network = Meter {
        load: 7.0,
        gate: Gate::Outside(1.0, 3000.0),
    };
    [camera, disk, network]
}

// What the disk raises in a tick: it storms from tick 5 to tick 7. While it is masked its interrupts aren't let in.
fn disk_count(tick: u32, masked: bool) -> u32 {
    if masked {
        return 0;
    }
    match tick {
        5..=7 => 40_000,
        _ => 100,
    }
}

fn print_tick(rt: &impl Print, tick: u32, counts: [u32; 3], bytes: [u8; 3]) -> io::Result<()> {
    let reading = |device: usize| Reading {
        count: counts[device],
        tripped: bytes[device] == 1,
    };
    println!(rt;
        "tick {tick}: camera {}, disk {}, network {}",
        reading(0),
        reading(1),
        reading(2)
    )
}

fn told(good: bool) -> &'static str {
    if good { "ticked" } else { "refused" }
}

// The storm, from a reset on.
fn storm(rt: &impl Print, row: &mut [Meter; 3]) -> io::Result<()> {
    reset_row(row);
    let mut bytes = [0u8; 3];
    for tick in 1..=12 {
        let masked = bytes[1] == 1;
        let counts = [30, disk_count(tick, masked), 600];
        tick_row(row, &counts, &mut bytes);
        print_tick(rt, tick, counts, bytes)?;
    }
    Ok(())
}

fn main(rt: HostRuntime) -> io::Result<()> {
    let mut row = devices();
    storm(&rt, &mut row)?;
    let mut bytes = [9u8; 3];
    let many = tick_row(&mut row, &[30, 100, 65_536], &mut bytes);
    println!(rt; "a count of 65536: {}", told(many))?;
    let few = tick_row(&mut row, &[30, 100], &mut bytes);
    println!(rt; "two counts for three meters: {}", told(few))?;
    reset_row(&mut row);
    let silent = tick_row(&mut row, &[30, 100, 0], &mut bytes);
    println!(rt; "after a reset: {}", told(silent))?;
    print_tick(&rt, 1, [30, 100, 0], bytes)
}

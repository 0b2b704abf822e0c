// Which register or window a request is refused for. No request asks for it: it is for a caller that was refused.
#![tactic(auto)]

ghost use Rattle.std.specs.Prelude.{◌≡◌, ◌<◌, take};
ghost use Rattle.image.specs.Windows.{bad_windows};
ghost use Rattle.refused.specs.Answers.{bad_number, first_named, register_named, window_named};
ghost use Rattle.refused.specs.FirstBad.{first_bad, first_bad_register, first_bad_window};

use image::bad_windows;
use registers::{Registers, bad_table};

// A register outside its list, by the C interface's numbers.
#[derive(Clone, Copy, Debug, PartialEq, Eq)]
pub enum BadRegister {
    Haw = 1,
    Mgaw = 2,
    // None of the page tables' depths is supported.
    Levels = 3,
    RootTable = 4,
    InterruptTable = 5,
    S = 6,
}

#[derive(Clone, Copy, Debug, PartialEq, Eq)]
pub enum FirstBad {
    Register(BadRegister),
    // By its number, which counts from 0.
    Window(u8),
}

impl FirstBad {
    // The C interface's: a window's is 8 and its own.
    pub fn number(self) -> u32
        ensures { (result ≡ bad_number self) × (result < 264) }
    {
        match self {
            FirstBad::Register(register) => register as u32,
            FirstBad::Window(window) => 8 + window as u32,
        }
    }
}

// The first register outside its list.
#[tactic(auto, unfolding(crate::specs::FirstBad::first_bad_register))]
pub fn first_bad_register(registers: Registers) -> Option<BadRegister>
    ensures { register_named result ≡ first_bad_register registers }
{
    if (registers.haw < 36) | (52 < registers.haw) {
        return Some(BadRegister::Haw);
    }
    if (registers.mgaw < 39) | (57 < registers.mgaw) {
        return Some(BadRegister::Mgaw);
    }
    if !(registers.levels3 | registers.levels4 | registers.levels5) {
        return Some(BadRegister::Levels);
    }
    if bad_table(registers.haw, registers.root_table) {
        return Some(BadRegister::RootTable);
    }
    if bad_table(registers.haw, registers.interrupt_table) {
        return Some(BadRegister::InterruptTable);
    }
    if 15 < registers.s {
        return Some(BadRegister::S);
    }
    None
}

// The windows whose numbers are the first so many are refused.
fn bad_first(windows: &[u64], count: usize, run: usize) -> bool
    ensures { result ≡ bad_windows (take count windows.now) run }
{
    if windows.len() <= count {
        return bad_windows(windows, run);
    }
    bad_windows(&windows[..count], run)
}

// The first window with which those up to it are refused, by its number. A window has three numbers.
pub fn first_bad_window(windows: &[u64], run: usize) -> Option<u8>
    ensures { window_named result ≡ first_bad_window windows.now run }
{
    for window in 0..4 {
        if bad_first(windows, 3 * window as usize + 3, run) {
            return Some(window);
        }
    }
    if bad_windows(windows, run) {
        return Some(4);
    }
    None
}

// Registers come before windows. None exactly where registers and windows are taken.
#[tactic(auto, unfolding(crate::specs::FirstBad::first_bad))]
pub fn first_bad(registers: Registers, windows: &[u64], run: usize) -> Option<FirstBad>
    ensures { first_named result ≡ first_bad registers windows.now run }
{
    if let Some(register) = first_bad_register(registers) {
        return Some(FirstBad::Register(register));
    }
    first_bad_window(windows, run).map(|window| FirstBad::Window(window))
}

// What a call answers, by number.
pub const OK: u32 = 0x00;

pub const REFUSED_3: u32 = 0x03;

pub const NO_FAULT: u32 = 0x10;

pub const NONE_STANDS: u32 = 0x40;

pub const METERS_REFUSED: u32 = 0x60;

// Plus the number of the first bad register or window.
pub const NONE_BAD: u32 = 0x70;

pub const BAD_REGISTERS: u32 = 0x101;

pub const BAD_ANSWER: u32 = 0x102;

pub const BAD_KIND: u32 = 0x103;

pub const BAD_RECORDER: u32 = 0x104;

pub const BAD_WINDOWS: u32 = 0x105;

pub const BAD_METERS: u32 = 0x106;

// Plus the vector.
pub const TAKEN: u32 = 0x200;

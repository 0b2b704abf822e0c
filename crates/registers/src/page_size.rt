// The three sizes of a page. A page spans 2^SHIFT bytes, and an address has its place within the page in its low SHIFT bits.
// Three types: a constant of a generic type or a trait is a call that promises nothing, and proofs need each span's value.
ghost use Rattle.std.specs.Prelude.{◌≡◌, ◌%◌, ◌^◌};

#[derive(Clone, Copy)]
pub struct Page4K;

impl Page4K {
    pub const SHIFT: u32 = 12;

    pub const SPAN: u64 = 1 << Self::SHIFT;

    pub fn offset(address: u64) -> u64
        ensures { result ≡ address % 2 ^ 12 }
    {
        address % Self::SPAN
    }
}

#[derive(Clone, Copy)]
pub struct Page2M;

impl Page2M {
    pub const SHIFT: u32 = 21;

    pub const SPAN: u64 = 1 << Self::SHIFT;
}

#[derive(Clone, Copy)]
pub struct Page1G;

impl Page1G {
    pub const SHIFT: u32 = 30;

    pub const SPAN: u64 = 1 << Self::SHIFT;
}

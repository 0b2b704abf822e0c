// The source id of a request: bus in 15:8, device and function in 7:0.
ghost use Rattle.std.specs.Prelude.{◌≡◌};
ghost use Rattle.registers.specs.Source.{source_of, bus_of, devfn_of};

#[derive(Clone, Copy, Debug, PartialEq, Eq)]
pub struct SourceId {
    pub id: u16,
}

impl SourceId {
    // A bus has so many functions.
    pub const FUNCTIONS: u16 = 256;

    pub fn new(bus: u8, devfn: u8) -> Self
        ensures { result.id ≡ source_of bus devfn }
    {
        Self {
            id: bus as u16 * Self::FUNCTIONS + devfn as u16,
        }
    }

    pub fn bus(self) -> u8
        ensures { result ≡ bus_of self.id }
    {
        (self.id / Self::FUNCTIONS) as u8
    }

    pub fn devfn(self) -> u8
        ensures { result ≡ devfn_of self.id }
    {
        (self.id % Self::FUNCTIONS) as u8
    }
}

// Of the number as a C caller or a trace has it.
impl From<u16> for SourceId {
    ghost from_gives = { λ id source. source.id ≡ id };

    fn from(id: u16) -> Self {
        Self { id }
    }
}

// Why a call is not taken up.
ghost use Rattle.std.specs.Prelude.{◌≡◌};
ghost use Rattle.registers.specs.Refusal.{refusal_number};

// By the C interface's numbers. 3 is the recorder's own (`RecorderAnswer::Refused`).
#[derive(Clone, Copy, Debug, PartialEq, Eq)]
pub enum Refusal {
    // Registers or windows that the unit doesn't take.
    BadRegisters = 1,
    // An address of the other kind of request.
    WrongAddress = 2,
    // A page with a byte in the interrupt range.
    InterruptPage = 4,
    // A descriptor that a take can't use.
    BadDescriptor = 5,
    // A PASID of more than 20 bits.
    WidePasid = 6,
}

impl Refusal {
    pub fn number(self) -> u8
        ensures { result ≡ refusal_number self }
    {
        self as u8
    }
}

// Why a request is blocked: VT-d's fault reasons.
ghost use Rattle.std.specs.Prelude.{◌≡◌};
ghost use Rattle.faults.specs.Reason.{number_of};

#[derive(Clone, Copy, Debug, PartialEq, Eq)]
pub enum Reason {
    RootNotPresent = 0x01,
    ContextNotPresent = 0x02,
    ContextInvalid = 0x03,
    AddressOverflow = 0x04,
    WriteDenied = 0x05,
    ReadDenied = 0x06,
    PageEntryAccess = 0x07,
    RootAccess = 0x08,
    ContextAccess = 0x09,
    RootReserved = 0x0A,
    ContextReserved = 0x0B,
    PageEntryReserved = 0x0C,
    TranslationBlocked = 0x0D,
    RequestReserved = 0x20,
    IndexOutOfRange = 0x21,
    IrteNotPresent = 0x22,
    IrteAccess = 0x23,
    IrteReserved = 0x24,
    CompatibilityBlocked = 0x25,
    SourceRejected = 0x26,
    DescriptorAccess = 0x27,
    DescriptorReserved = 0x28,
}

impl Reason {
    pub fn number(self) -> u8
        ensures { result ≡ number_of self }
    {
        self as u8
    }
}

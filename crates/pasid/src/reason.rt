// Why a request is blocked in scalable mode: VT-d's fault reasons from 38h up.
ghost use Rattle.std.specs.Prelude.{◌≡◌};
ghost use Rattle.pasid.specs.Reason.{number_of};

#[derive(Clone, Copy, Debug, PartialEq, Eq)]
pub enum ScalableReason {
    RootAccess = 0x38,
    RootNotPresent = 0x39,
    RootReserved = 0x3A,
    ContextAccess = 0x40,
    ContextNotPresent = 0x41,
    ContextReserved = 0x42,
    ContextInvalid = 0x43,
    PasidDisabled = 0x45,
    PasidOutOfRange = 0x46,
    DirectoryAccess = 0x50,
    DirectoryNotPresent = 0x51,
    DirectoryReserved = 0x52,
    TableAccess = 0x58,
    TableNotPresent = 0x59,
    TableReserved = 0x5A,
    TableInvalid = 0x5B,
    SupervisorDenied = 0x5D,
    FirstLevelAccess = 0x70,
    FirstLevelNotPresent = 0x71,
    FirstLevelReserved = 0x72,
    FirstLevelTopAccess = 0x73,
    IntermediateOverflow = 0x74,
    SecondLevelAccess = 0x78,
    SecondLevelNotPresent = 0x79,
    SecondLevelReserved = 0x7A,
    SecondLevelTopAccess = 0x7B,
    FlagsNotSnooped = 0x7C,
    NotCanonical = 0x80,
    UserDenied = 0x81,
    AddressOverflow = 0x84,
    WriteDenied = 0x85,
    ReadDenied = 0x86,
}

impl ScalableReason {
    pub fn number(self) -> u8
        ensures { result ≡ number_of self }
    {
        self as u8
    }
}

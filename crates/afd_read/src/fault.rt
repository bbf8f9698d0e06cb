use std::alloc::AllocError;

/// An AFD couldn't be read.
#[derive(Clone, Copy, Debug, PartialEq, Eq)]
pub enum AfdFault {
    /// The text has no first line, or that isn't the head of an AFD.
    NotAnAfd {
        /// The number of the line, which is 1.
        line: u64,
        /// The number of the line's first field that is off its grammar, counted from 1 in the order of Portaria MTP
        /// 671/2021, annex V. 0 where there is no line, or it hasn't the type or the length of a head.
        field: u8,
    },
    /// The source failed.
    SourceFault,
    /// More bytes came than a text may have: 268,435,456.
    InputLimit,
    /// There was not enough memory.
    OutOfMemory,
}

impl From<AllocError> for AfdFault {
    ghost use Rattle.std.specs.Prelude.{◌≡◌};
    ghost use Rattle.afd_read.specs.declared.fault.AfdFault.TheVariants.{OutOfMemory};

    ghost from_gives = { λ _ fault. fault ≡ OutOfMemory };

    fn from(_: AllocError) -> Self {
        AfdFault::OutOfMemory
    }
}

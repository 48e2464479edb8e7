//! Defines why a name is not expanded.
use asn_core::OutOfMemory;
use std::alloc::{AllocError, AllocFailed};

/// States why a name is not expanded.
#[derive(Clone, Copy, Debug, Drop, PartialEq, Eq)]
pub enum ExpansionFault {
    /// The shape has too many nodes, or opens too many names at once.
    TooLarge,
    /// Memory ran out.
    OutOfMemory,
}

impl From<AllocError> for ExpansionFault {
    ghost use Rattle.asn_expansion.specs.declared.fault.ExpansionFault.TheVariants.{OutOfMemory};
    ghost use Rattle.std.specs.Prelude.{◌≡◌};

    ghost from_gives = { λ _ e. e ≡ OutOfMemory };

    fn from(_refused: AllocError) -> ExpansionFault {
        ExpansionFault::OutOfMemory
    }
}

impl<T: Drop> From<AllocFailed<T>> for ExpansionFault {
    ghost use Rattle.asn_expansion.specs.declared.fault.ExpansionFault.TheVariants.{OutOfMemory};
    ghost use Rattle.std.specs.Prelude.{◌≡◌};

    ghost from_gives = { λ _ e. e ≡ OutOfMemory };

    fn from(_refused: AllocFailed<T>) -> ExpansionFault {
        ExpansionFault::OutOfMemory
    }
}

impl From<OutOfMemory> for ExpansionFault {
    ghost use Rattle.asn_expansion.specs.declared.fault.ExpansionFault.TheVariants.{OutOfMemory};
    ghost use Rattle.std.specs.Prelude.{◌≡◌};

    ghost from_gives = { λ _ e. e ≡ OutOfMemory };

    fn from(_refused: OutOfMemory) -> ExpansionFault {
        ExpansionFault::OutOfMemory
    }
}

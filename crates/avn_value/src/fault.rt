//! Defines why a value is not read.
use asn_core::OutOfMemory;
use std::alloc::{AllocError, AllocFailed};

/// Why a value is not read. What is found in place of one is looked for by the caller.
#[derive(Clone, Copy, Drop, PartialEq, Eq)]
pub enum Fault {
    /// The text ahead is not in the notation.
    UnexpectedToken,
    /// A value is looked for above the greatest level.
    TooDeep,
    /// Memory ran out.
    OutOfMemory,
}

impl From<AllocError> for Fault {
    ghost use Rattle.avn_value.specs.declared.fault.Fault.TheVariants.{OutOfMemory};
    ghost use Rattle.std.specs.Prelude.{◌≡◌};

    ghost from_gives = { λ _ e. e ≡ OutOfMemory };

    fn from(_refused: AllocError) -> Fault {
        Fault::OutOfMemory
    }
}

impl<T: Drop> From<AllocFailed<T>> for Fault {
    ghost use Rattle.avn_value.specs.declared.fault.Fault.TheVariants.{OutOfMemory};
    ghost use Rattle.std.specs.Prelude.{◌≡◌};

    ghost from_gives = { λ _ e. e ≡ OutOfMemory };

    fn from(_refused: AllocFailed<T>) -> Fault {
        Fault::OutOfMemory
    }
}

impl From<OutOfMemory> for Fault {
    ghost use Rattle.avn_value.specs.declared.fault.Fault.TheVariants.{OutOfMemory};
    ghost use Rattle.std.specs.Prelude.{◌≡◌};

    ghost from_gives = { λ _ e. e ≡ OutOfMemory };

    fn from(_refused: OutOfMemory) -> Fault {
        Fault::OutOfMemory
    }
}

//! Defines why types are not linked.
use asn_core::OutOfMemory;
use std::alloc::{AllocError, AllocFailed};

/// States why types are not linked.
#[derive(Clone, Copy, Debug, Drop, PartialEq, Eq)]
pub enum LinkFault {
    /// There are 2^32 types or more, or so many parts of one, or COMPONENTS OF includes more types
    /// or nests them deeper than the limits, which `asn_modules_rules` tells before.
    TooMany,
    /// Memory ran out.
    OutOfMemory,
}

impl From<AllocError> for LinkFault {
    ghost use Rattle.asn_modules_types.specs.declared.fault.LinkFault.TheVariants.{OutOfMemory};
    ghost use Rattle.std.specs.Prelude.{◌≡◌};

    ghost from_gives = { λ _ e. e ≡ OutOfMemory };

    fn from(_refused: AllocError) -> LinkFault {
        LinkFault::OutOfMemory
    }
}

impl<T: Drop> From<AllocFailed<T>> for LinkFault {
    ghost use Rattle.asn_modules_types.specs.declared.fault.LinkFault.TheVariants.{OutOfMemory};
    ghost use Rattle.std.specs.Prelude.{◌≡◌};

    ghost from_gives = { λ _ e. e ≡ OutOfMemory };

    fn from(_refused: AllocFailed<T>) -> LinkFault {
        LinkFault::OutOfMemory
    }
}

impl From<OutOfMemory> for LinkFault {
    ghost use Rattle.asn_modules_types.specs.declared.fault.LinkFault.TheVariants.{OutOfMemory};
    ghost use Rattle.std.specs.Prelude.{◌≡◌};

    ghost from_gives = { λ _ e. e ≡ OutOfMemory };

    fn from(_refused: OutOfMemory) -> LinkFault {
        LinkFault::OutOfMemory
    }
}

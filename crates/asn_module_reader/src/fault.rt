//! Defines why a text is not read.
use asn_core::OutOfMemory;
use std::alloc::{AllocError, AllocFailed};

/// States why a text is not read.
#[derive(Clone, Copy, Debug, Drop, PartialEq, Eq)]
pub enum ReadFault {
    /// The text is not in the grammar.
    Syntax,
    /// Memory ran out.
    OutOfMemory,
}

impl From<AllocError> for ReadFault {
    ghost use Rattle.asn_module_reader.specs.declared.fault.ReadFault.TheVariants.{OutOfMemory};
    ghost use Rattle.std.specs.Prelude.{◌≡◌};

    ghost from_gives = { λ _ e. e ≡ OutOfMemory };

    fn from(_refused: AllocError) -> ReadFault {
        ReadFault::OutOfMemory
    }
}

impl<T: Drop> From<AllocFailed<T>> for ReadFault {
    ghost use Rattle.asn_module_reader.specs.declared.fault.ReadFault.TheVariants.{OutOfMemory};
    ghost use Rattle.std.specs.Prelude.{◌≡◌};

    ghost from_gives = { λ _ e. e ≡ OutOfMemory };

    fn from(_refused: AllocFailed<T>) -> ReadFault {
        ReadFault::OutOfMemory
    }
}

impl From<OutOfMemory> for ReadFault {
    ghost use Rattle.asn_module_reader.specs.declared.fault.ReadFault.TheVariants.{OutOfMemory};
    ghost use Rattle.std.specs.Prelude.{◌≡◌};

    ghost from_gives = { λ _ e. e ≡ OutOfMemory };

    fn from(_refused: OutOfMemory) -> ReadFault {
        ReadFault::OutOfMemory
    }
}

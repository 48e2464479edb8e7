//! Defines why a text is no module, and why a name has no shape.
ghost use Rattle.asn_module.specs.Faults.{module_fault_text};
ghost use Rattle.std.specs.Prelude.{Some};

use asn_core::OutOfMemory;
use asn_module_reader::ReadFault;
use std::alloc::{AllocError, AllocFailed};
use std::error::Error;
use std::fmt;

/// States why a text is no module, or why a name has no shape.
#[derive(Debug, Drop, PartialEq, Eq)]
pub enum ModuleFault {
    /// The text is not in the grammar.
    Syntax,
    /// The type of this name is assigned twice.
    Duplicate(String),
    /// The type of this name is referred to and not assigned.
    Unknown(String),
    /// The module assigns no type of this name.
    NoSuchName(String),
    /// The shape of the type of this name has too many nodes, or opens too many names at once.
    TooLarge(String),
    /// The shape of the type of this name can't be read.
    NotReadable(String),
    /// Memory ran out.
    OutOfMemory,
}

impl fmt::Display for ModuleFault {
    ghost output = { λ fault. Some (module_fault_text fault) };

    fn fmt<W: fmt::Write>(&self, f: &mut fmt::Formatter<W>) -> fmt::Result {
        match self {
            ModuleFault::Syntax => f.write_str("not a module of this profile"),
            ModuleFault::Duplicate(name) => write!(f, "type {name} is assigned twice"),
            ModuleFault::Unknown(name) => write!(f, "type {name} isn't assigned"),
            ModuleFault::NoSuchName(name) => write!(f, "the module has no type {name}"),
            ModuleFault::TooLarge(name) => write!(f, "type {name} is too large"),
            ModuleFault::NotReadable(name) => write!(f, "type {name} isn't readable"),
            ModuleFault::OutOfMemory => f.write_str("Out of memory"),
        }
    }
}

/// Has no source.
impl Error for ModuleFault {}

impl From<AllocError> for ModuleFault {
    ghost use Rattle.asn_module.specs.declared.fault.ModuleFault.TheVariants.{OutOfMemory};
    ghost use Rattle.std.specs.Prelude.{◌≡◌};

    ghost from_gives = { λ _ e. e ≡ OutOfMemory };

    fn from(_refused: AllocError) -> ModuleFault {
        ModuleFault::OutOfMemory
    }
}

impl<T: Drop> From<AllocFailed<T>> for ModuleFault {
    ghost use Rattle.asn_module.specs.declared.fault.ModuleFault.TheVariants.{OutOfMemory};
    ghost use Rattle.std.specs.Prelude.{◌≡◌};

    ghost from_gives = { λ _ e. e ≡ OutOfMemory };

    fn from(_refused: AllocFailed<T>) -> ModuleFault {
        ModuleFault::OutOfMemory
    }
}

impl From<OutOfMemory> for ModuleFault {
    ghost use Rattle.asn_module.specs.declared.fault.ModuleFault.TheVariants.{OutOfMemory};
    ghost use Rattle.std.specs.Prelude.{◌≡◌};

    ghost from_gives = { λ _ e. e ≡ OutOfMemory };

    fn from(_refused: OutOfMemory) -> ModuleFault {
        ModuleFault::OutOfMemory
    }
}

impl From<ReadFault> for ModuleFault {
    ghost use Rattle.asn_module.specs.Faults.{module_fault_of};
    ghost use Rattle.std.specs.Prelude.{◌≡◌};

    ghost from_gives = { λ fault e. e ≡ module_fault_of fault };

    fn from(fault: ReadFault) -> ModuleFault {
        match fault {
            ReadFault::Syntax => ModuleFault::Syntax,
            ReadFault::OutOfMemory => ModuleFault::OutOfMemory,
        }
    }
}

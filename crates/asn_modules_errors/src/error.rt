//! Defines the error of reading modules.
ghost use Rattle.asn_modules_errors.specs.Errors.{error_text};
ghost use Rattle.std.specs.Prelude.{Some};

use crate::cause::Cause;
use asn_lexer::Place;
use std::alloc::{AllocError, AllocFailed};
use std::error::Error;
use std::fmt;

/// States why texts are no modules.
#[derive(Drop)]
pub enum ModuleError {
    /// A text is refused.
    Refused {
        /// Is the name of the text, as of its file.
        file: String,
        /// Is the line and column at which it is refused.
        place: Place,
        /// States why.
        cause: Cause,
    },
    /// Memory ran out.
    OutOfMemory,
}

/// Prints `FILE:LINE:COLUMN: ` and why.
impl fmt::Display for ModuleError {
    ghost output = { λ error. Some (error_text error) };

    fn fmt<W: fmt::Write>(&self, f: &mut fmt::Formatter<W>) -> fmt::Result {
        match self {
            ModuleError::Refused { file, place, cause } => {
                let line = place.line;
                let column = place.column;
                write!(f, "{file}:{line}:{column}: {cause}")
            }
            ModuleError::OutOfMemory => f.write_str("Out of memory"),
        }
    }
}

/// Prints the same.
impl fmt::Debug for ModuleError {
    fn fmt<W: fmt::Write>(&self, f: &mut fmt::Formatter<W>) -> fmt::Result {
        fmt::Display::fmt(self, f)
    }
}

/// Has no source.
impl Error for ModuleError {}

impl From<AllocError> for ModuleError {
    ghost use Rattle.asn_modules_errors.specs.declared.error.ModuleError.TheVariants.{OutOfMemory};
    ghost use Rattle.std.specs.Prelude.{◌≡◌};

    ghost from_gives = { λ _ e. e ≡ OutOfMemory };

    fn from(_refused: AllocError) -> ModuleError {
        ModuleError::OutOfMemory
    }
}

impl<T: Drop> From<AllocFailed<T>> for ModuleError {
    ghost use Rattle.asn_modules_errors.specs.declared.error.ModuleError.TheVariants.{OutOfMemory};
    ghost use Rattle.std.specs.Prelude.{◌≡◌};

    ghost from_gives = { λ _ e. e ≡ OutOfMemory };

    fn from(_refused: AllocFailed<T>) -> ModuleError {
        ModuleError::OutOfMemory
    }
}

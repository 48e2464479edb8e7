//! Defines why a line isn't kept, and why no line is.
ghost use Rattle.asn_filter.specs.Texts.{filter_fault_text};
ghost use Rattle.std.specs.Prelude.{Some};

use asn_core::OutOfMemory;
use asn_dynamic::ConvertError;
use asn_growth::Reason;
use std::error::Error;
use std::fmt;

/// States why a line isn't kept. `Read`: the newer type doesn't read it, or the older one lacks an
/// alternative or item in it. `Write`: what is left of its value isn't written in JSON.
pub type LineFault = ConvertError;

/// States why no line is kept.
#[derive(Clone, Copy, Debug, PartialEq, Eq)]
pub enum FilterFault {
    /// The newer type is no later version of the older one.
    NotGrown {
        /// Holds the number of the first node of the older shape that differs.
        place: usize,
        /// States what differs there.
        reason: Reason,
    },
    /// Memory ran out.
    OutOfMemory,
}

impl fmt::Display for FilterFault {
    ghost output = { λ fault. Some (filter_fault_text fault) };

    fn fmt<W: fmt::Write>(&self, f: &mut fmt::Formatter<W>) -> fmt::Result {
        match self {
            FilterFault::NotGrown { place, .. } => write!(f, "shapes differ at {place}"),
            FilterFault::OutOfMemory => f.write_str("Out of memory"),
        }
    }
}

/// Has no source.
impl Error for FilterFault {}

impl From<OutOfMemory> for FilterFault {
    ghost use Rattle.asn_filter.specs.declared.fault.FilterFault.TheVariants.{OutOfMemory};
    ghost use Rattle.std.specs.Prelude.{◌≡◌};

    ghost from_gives = { λ _ e. e ≡ OutOfMemory };

    fn from(_refused: OutOfMemory) -> FilterFault {
        FilterFault::OutOfMemory
    }
}

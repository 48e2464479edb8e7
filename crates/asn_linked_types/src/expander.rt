//! Makes the shape that a type means which names others by number (`asn_linked_types`): its
//! expansion, in which each type that is named stands in the place of its name. Values are read
//! without it; two versions of a type are compared by it.

mod copies;
pub mod limits;
mod opened;
mod types;

pub use asn_expansion::ExpansionFault;
pub use types::expand;

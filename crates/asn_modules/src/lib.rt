//! Reads published ASN.1 modules: texts go in, each by the name of its file, and types come out, by
//! which `asn_dynamic` reads, writes and converts values. A type is found by its name, and opened
//! where a value reaches it.
#![tactic(auto)]

mod empty;
mod missing;
mod modules;
mod names;
mod read;

pub use asn_linked::Place;
pub use asn_modules_reader::text::ModuleError;
pub use empty::is_without_values;
pub use missing::MissingModule;
pub use modules::Modules;
pub use names::TypeName;
pub use read::read_modules;

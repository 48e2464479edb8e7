//! Describes ASN.1 types without saying how they are encoded: `AsnType` with the tables of each
//! kind, what a kind has of its types (`kinds`), and the types of the language and of the crates
//! below, texts (`texts`) and the elements of sets among them.
#![tactic(auto)]

mod asn_type;
mod bit_string;
mod integers;
mod kinds;
mod object_identifier;
mod octet_string;
mod set_of;
mod std_types;
mod strings;
mod texts;
mod times;

pub use asn_type::{AsnType, Choice, Constructed, Enumerated, SetField};
pub use kinds::{
    DescribeKind, EnumeratedKind, FieldTableKind, IntegerKind, OfKind, PlainKind, VariantTableKind,
};
pub use set_of::{ElementKind, SetElement};
pub use strings::{NamedSet, OctetsSet, TextSet};
pub use texts::{TextKind, TextType};

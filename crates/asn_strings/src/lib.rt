//! Defines the restricted character string types of ASN.1 (X.680, section 41): text within an
//! alphabet (`text`), octets within an alphabet (`octets`), and 16-bit units (`bmp`). Contracts
//! see each as the list of its bytes or of its units. A value of such a type is within its
//! alphabet by an invariant, so it is tested once, where it is made.
#![tactic(auto)]

pub mod bmp;
pub mod character_sets;
pub mod fault;
pub mod laws;
pub mod octets;
pub mod text;

pub use bmp::BmpString;
pub use character_sets::CharacterSet;
pub use fault::{StringFault, UnitFault};
pub use octets::{GeneralString, GraphicString, RestrictedOctets, TeletexString};
pub use text::{
    Ia5String, NumericString, PrintableString, RestrictedString, UniversalString, Utf8String,
    VisibleString,
};

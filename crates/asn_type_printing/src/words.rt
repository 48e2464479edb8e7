//! Names the kinds of types as ASN.1 does (X.680).

mod kinds;

pub use kinds::{kind_word, string_word};

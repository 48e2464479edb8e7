//! Describes sample types by hand, as a user of the library describes a type of one's own, each
//! with the laws of the traits: sequences and a set whose fields are no choices, enumerations, and
//! bit strings under constraints. What contracts cite of a type stands in its file of `specs/`: its
//! fields or items, and the value of each Rust value. `asn_samples` gives the names by which the
//! program knows the types.
#![tactic(auto, using(asn_coding::proofs::Passing::field_steps))]

mod blank;
mod constrained_bit_string;
mod defaulted;
mod ext_enum;
mod extensible_bit_string;
mod extensible_bit_string_field;
mod mark_set;
mod marked_bit_string;
mod nested;
mod new_mode;
mod old_mode;
mod renamed;
mod simple_enum;
mod struct_;
mod very;
mod with_null_opt;

pub use blank::Blank;
pub use constrained_bit_string::ConstrainedBitString;
pub use defaulted::Defaulted;
pub use ext_enum::ExtEnum;
pub use extensible_bit_string::ExtensibleBitString;
pub use extensible_bit_string_field::ExtensibleBitStringField;
pub use mark_set::MarkSet;
pub use marked_bit_string::MarkedBitString;
pub use nested::Nested;
pub use new_mode::NewMode;
pub use old_mode::OldMode;
pub use renamed::Renamed;
pub use simple_enum::SimpleEnum;
pub use struct_::Struct;
pub use very::Very;
pub use with_null_opt::WithNullOpt;

//! Describes sample types by hand, as a user of the library describes a type of one's own, each
//! with the laws of the traits: choices, and the sequences that hold them. What contracts cite of a
//! type stands in its file of `specs/`: its alternatives or fields, and the value of each Rust
//! value. `asn_samples` gives the names by which the program knows the types.
#![tactic(auto, using(asn_coding::proofs::Passing::field_steps))]

mod ext_choice;
mod inner;
mod new_part;
mod new_report;
mod old_part;
mod old_report;
mod simple_choice;
mod test_type_a;

pub use ext_choice::ExtChoice;
pub use inner::Inner;
pub use new_part::NewPart;
pub use new_report::NewReport;
pub use old_part::OldPart;
pub use old_report::OldReport;
pub use simple_choice::SimpleChoice;
pub use test_type_a::TestTypeA;

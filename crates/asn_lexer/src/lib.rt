//! Splits modules of ASN.1 into their tokens (X.680, section 12), with no copy of the text: a token
//! is a kind and a range. Comments are white space.
#![tactic(auto)]

mod comment;
mod keyword;
mod kind;
pub mod laws;
mod piece;
mod place;
mod run;
mod sign;
mod split;
mod token;
mod word;

pub use keyword::Keyword;
pub use kind::{Initial, Kind};
pub use place::{Place, place_of};
pub use split::{LexFault, tokens};
pub use token::Token;

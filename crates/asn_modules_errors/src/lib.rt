//! Defines why texts of modules are refused, each with its file, line and column. An error holds no
//! reference to a text.
#![tactic(auto)]

mod cause;
mod error;
mod expected;
mod left_out;
mod no_token;
mod refusal;
mod slice;

pub use cause::{Cause, NameRule};
pub use error::ModuleError;
pub use left_out::LeftOut;
pub use no_token::{NoToken, no_token_at};
pub use refusal::{place_at, refused, unexpected_token};
pub use slice::{shown, text_of};

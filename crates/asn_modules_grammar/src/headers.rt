//! Reads what stands in a module before its assignments (X.680, section 13): its name, the default
//! of its tags, what it exports and what it imports. Groups between braces or parentheses are
//! passed over.

mod export;
mod fault;
mod group;
mod header;
mod import;
pub mod laws;
mod mark;
mod name;
mod opening;
mod tagging;

pub use fault::{Expected, SyntaxFault, unexpected};
pub use group::{Group, past_group, past_optional_braces};
pub use header::{Header, read_header};
pub use import::Import;
pub use name::read_names;
pub use opening::Opening;
pub use tagging::Tagging;

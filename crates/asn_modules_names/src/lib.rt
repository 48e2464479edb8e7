//! Checks the names of modules, over all texts that were read together. A name is the bytes of its
//! token. Each check has the first name that breaks a rule as a definition, and tells that one.
#![tactic(auto)]

mod assigned;
mod check;
mod distinct;
mod errors;
mod headed;
pub mod imports;
pub mod lookup;
mod mention;
mod missing;
pub mod references;
pub mod sources;

pub use check::check_names;
pub use distinct::check_distinct;
pub use errors::broken;
pub use mention::{Mention, mention_of};
pub use missing::missing_modules;

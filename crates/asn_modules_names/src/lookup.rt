//! Finds the types and values that modules name, over all texts that were read together. Modules
//! are numbered from 0 in the order of the texts, and so are the types that they assign, over all
//! modules, and by themselves the values.

mod entries;
mod find;
mod home;
mod imports;
mod index;
mod sort;
mod table;

pub use entries::module_name;
pub use home::{Home, homes_of};
pub use imports::imports_of;
pub use index::{Index, index_of};
pub use sort::Sort;

//! Reads the parts of types of published files that don't nest: tags, numbers, items, sizes, the
//! words that begin types, object classes, and values. There is one function for each production of
//! the grammar of `asn_modules_grammar`, over tokens. One token decides what stands at a place.

mod class;
mod clause;
mod entries;
mod group;
mod item;
mod mark;
mod number;
mod opening;
mod sign;
mod size;
mod start;
mod tag;
mod value;

pub(crate) use clause::{is_capital, opens_clause, past_clauses, past_definition, take_clauses};
pub use entries::Entries;
pub use group::{past, past_parameters};
pub use item::{read_item, read_items};
pub use mark::{Mark, is_small, take};
pub use number::{read_constant, read_named_number, read_named_numbers};
pub use sign::{Sign, take_sign};
pub use size::{read_of, read_sizes};
pub use start::{Start, begins_type, read_start};
pub use tag::read_tags;
pub use value::{read_presence, read_value};

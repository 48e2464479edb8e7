//! Defines what a reader or a writer of values sees of a type: its parts, each shown by a small
//! handle, and the loops that stand around a part; and what a part means within these loops.
#![tactic(auto)]

mod loops;
mod names;
mod order;
mod part;
mod shapes;

pub use loops::{Loops, from_loop};
pub use names::{AlternativeNames, FieldNames, FieldsByTag};
pub use order::places_as_read;
pub use part::{LeafPart, Part, PartAlternative, PartField, PartKind};

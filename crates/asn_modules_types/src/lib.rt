//! Gives the types that modules assign as shapes, of which each names others by their numbers:
//! `Shape::Back` of a number stands for the type of that number. What a type means by these is its
//! expansion, which is never built.
#![tactic(auto)]

mod allowance;
mod assigned;
mod copies;
mod defaults;
mod fault;
mod leaves;
mod limits;
mod lines;
mod linked;
pub mod named_numbers;
mod names;
mod numbers;
mod parts;
mod scope;
mod shapes;
mod sizes;
mod templates;
mod values;
mod words;

pub use assigned::{Assigned, assigned_of};
pub use fault::LinkFault;
pub use limits::{
    DEFAULT_ITEMS_LIMIT, DEFAULT_STRING_LIMIT, INCLUDED_LIMIT, LEVEL_LIMIT, NAME_LIMIT,
    stated_limits,
};
pub use linked::linked_types;
pub use words::name_in;

//! Checks that COMPONENTS OF includes neither too many bytes nor too many levels of types.

mod check;
mod count;
mod limits;
mod names;
mod scope;
mod sizes;
mod types;

pub use check::{check_included, is_small};
pub use limits::{
    INCLUDED_LEVEL_LIMIT, INCLUDED_SIZE_LIMIT, INSTANCE_SIZE, NAME_LIMIT, TYPE_SIZE, stated_limits,
};

//! Defines the names that a type can carry beside its tag.

/// Holds the name of a type's element, for encoding rules that write one. JER and AVN ignore it.
#[derive(Clone, Copy, Debug, PartialEq, Eq)]
pub struct Identifier {
    /// The name, if the type has one.
    pub name: Option<&'static str>,
}

impl Identifier {
    /// Is no name.
    pub const EMPTY: Identifier = Identifier { name: None };
}

//! Defines the names of members.
ghost use Rattle.jer_values.specs.Names.{name_bytes};
ghost use Rattle.std.specs.Prelude.{◌≡◌};

/// Is the name of a member: the constant of a type, or a copy of a text.
#[derive(Drop)]
pub enum JerName {
    /// Is a constant, which takes no memory of its own.
    Constant(&'static str),
    /// Is a copy.
    Owned(String),
}

/// Gives the text.
impl JerName {
    /// Returns the text of the name.
    pub fn as_str(&self) -> &str
        ensures { result.now ≡ name_bytes self.now }
    {
        match self {
            JerName::Constant(text) => text,
            JerName::Owned(text) => text.as_str(),
        }
    }
}

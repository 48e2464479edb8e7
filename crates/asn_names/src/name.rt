//! Defines a name as it is encoded.
ghost use Rattle.asn_names.specs.Text.{name_text};
ghost use Rattle.std.specs.Prelude.{◌≡◌};

/// Is the name of a field or the identifier of an alternative.
#[derive(Clone, Copy)]
pub enum Name<'a> {
    /// Is a constant, which is kept without a copy.
    Constant(&'static str),
    /// Is another text, which is copied where it is kept.
    Borrowed(&'a str),
}

/// Gives the text.
impl<'a> Name<'a> {
    /// Returns the text of the name.
    pub fn as_str(self) -> &'a str
        ensures { result.now ≡ name_text self.entry }
    {
        match self {
            Name::Constant(text) => text,
            Name::Borrowed(text) => text,
        }
    }
}

//! Lists the names in the tables of constants of a type.
ghost use Rattle.std.specs.List.{slice_get};
ghost use Rattle.std.specs.Prelude.{◌≡◌, ◌+◌, ◌<◌, ◌++◌, Some, length, map};

use crate::field::Field;
use asn_names::NameList;

/// Lists the fields of a SEQUENCE or SET: those of the root, and then the extension additions.
#[derive(Clone, Copy)]
pub struct TableNames<'a> {
    /// Holds the table of the root fields.
    pub root: &'a [Field],
    /// Holds the table of the extension additions.
    pub additions: &'a [Field],
}

/// Finds rows.
impl<'a> TableNames<'a> {
    /// Returns the row of the field at a place.
    pub fn field(&self, place: usize) -> &'a Field
        requires { place < length self.now.root.now + length self.now.additions.now }
        ensures { slice_get (self.now.root.now ++ self.now.additions.now) place
            ≡ Some result.now }
    {
        if place < self.root.len() {
            &self.root[place]
        } else {
            // No underflow: the place is past the root's fields here.
            &self.additions[place - self.root.len()]
        }
    }
}

/// Lists their names, which are constants.
impl<'a> NameList for TableNames<'a> {
    ghost use Rattle.asn_coding.specs.Tables.{name_rows};
    ghost use Rattle.std.specs.Prelude.{◌++◌};

    ghost rows = { λ t. name_rows (t.root.now ++ t.additions.now) };

    fn count(&self) -> usize {
        // No overflow: both tables are in memory.
        self.root.len() + self.additions.len()
    }

    fn name(&self, place: usize) -> &str {
        self.field(place).name
    }

    fn index(&self, place: usize) -> usize {
        self.field(place).index
    }

    fn constant(&self, place: usize) -> Option<&'static str> {
        Some(self.field(place).name)
    }
}

/// Lists the alternatives of a CHOICE by their identifiers.
#[derive(Clone, Copy)]
pub struct Identifiers<'a>(pub &'a [&'static str]);

/// Finds identifiers.
impl<'a> Identifiers<'a> {
    /// Returns the identifier at a place.
    pub fn identifier(&self, place: usize) -> &'static str
        requires { place < length self.now.0.now }
        ensures { slice_get (map (λ s. s.now) self.now.0.now) place ≡ Some result.now }
    {
        self.0[place]
    }
}

/// Lists the identifiers, which are constants.
impl<'a> NameList for Identifiers<'a> {
    ghost use Rattle.asn_coding.specs.Tables.{numbered};
    ghost use Rattle.std.specs.Prelude.{map};

    ghost rows = { λ t. numbered 0 (map (λ s. s.now) t.0.now) };

    fn count(&self) -> usize {
        self.0.len()
    }

    fn name(&self, place: usize) -> &str {
        self.identifier(place)
    }

    fn index(&self, place: usize) -> usize {
        place
    }

    fn constant(&self, place: usize) -> Option<&'static str> {
        Some(self.identifier(place))
    }
}

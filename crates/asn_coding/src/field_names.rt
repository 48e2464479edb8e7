//! Holds the names of the fields of a SEQUENCE or SET, along which its decoding goes. A field is
//! decoded with no name in the source: each call takes the next one from here, to name it in an
//! error.
ghost use Rattle.asn_coding.specs.Writing.{head_name, tail_names};
ghost use Rattle.asn_coding.specs.Tables.{names_of};
ghost use Rattle.std.specs.Prelude.{◌≡◌, ◌++◌, ℕ, List};

use crate::field::Field;
use std::marker::Model;

/// Holds the names of the fields that are still to be decoded, in order, as the type's tables have
/// them. Contracts see the list of names.
#[derive(Drop)]
pub struct FieldNames<'a> {
    /// Holds the rows of the root that are left.
    root: &'a [Field],
    /// Holds the rows of the extension additions that are left.
    additions: &'a [Field],
}

/// Lets contracts see the names of both tables as one list.
impl<'a> Model for FieldNames<'a> {
    ghost Value = { List (List ℕ) };

    ghost view = { λ names. names_of names.root.now ++ names_of names.additions.now };
}

/// Goes along the names. Nothing is copied.
impl<'a> FieldNames<'a> {
    /// Returns the names in the table of the root fields, and then those in that of the extension
    /// additions.
    pub fn new(root: &'a [Field], additions: &'a [Field]) -> FieldNames<'a>
        ensures { result ≡ names_of root.now ++ names_of additions.now }
    {
        FieldNames { root, additions }
    }

    /// Takes the first name and returns it. It is empty where there is none.
    pub fn take_first(&mut self) -> &'static str
        ensures name { result.now ≡ head_name self.old }
        ensures others { self.new ≡ tail_names self.old }
    {
        if let Some((field, others)) = self.root.split_first() {
            self.root = others;
            return field.name;
        }
        if let Some((field, others)) = self.additions.split_first() {
            self.additions = others;
            return field.name;
        }
        ""
    }
}

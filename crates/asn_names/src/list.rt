//! Defines a list of names, whatever it is stored in.
ghost use Rattle.asn_names.specs.Rows.{NameRow, index_at, name_at};
ghost use Rattle.asn_names.specs.Text.{name_text};
ghost use Rattle.std.specs.Prelude.{◌≡◌, ◌<◌, List, IfSome, length};

use crate::Name;

/// Lists the fields of a SEQUENCE or SET, or the alternatives of a CHOICE, by name, in the order in
/// which they are decoded or encoded. That order need not be the one in which the type lists them:
/// a SET is decoded in the order of its tags.
pub trait NameList {
    // A row for each entry: its place among those that the type lists, and its name.
    ghost rows: { Self → List NameRow };

    /// Returns the number of entries.
    fn count(&self) -> usize
        ensures { result ≡ length (rows self.now) };

    /// Returns the name of an entry.
    fn name(&self, place: usize) -> &str
        requires { place < length (rows self.now) }
        ensures { result.now ≡ name_at (rows self.now) place };

    /// Returns the place of an entry among those that the type lists.
    fn index(&self, place: usize) -> usize
        requires { place < length (rows self.now) }
        ensures { result ≡ index_at (rows self.now) place };

    /// Returns the name of an entry if it is a constant, so that it is kept without a copy.
    fn constant(&self, place: usize) -> Option<&'static str>
        requires { place < length (rows self.now) }
        ensures { IfSome result (λ text. text.now ≡ name_at (rows self.now) place) };

    /// Returns the name of an entry, which past the list is empty, as one that is encoded.
    final fn encoded_name(&self, place: usize) -> Name<'_>
        ensures { name_text result ≡ name_at (rows self.now) place }
    {
        if place >= self.count() {
            return Name::Constant("");
        }
        match self.constant(place) {
            Some(text) => Name::Constant(text),
            None => Name::Borrowed(self.name(place)),
        }
    }
}

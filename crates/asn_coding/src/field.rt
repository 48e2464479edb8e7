//! Defines a table of the fields of a SEQUENCE or SET: what a type states of each field, in
//! constants.
ghost use Rattle.std.specs.Prelude.{◌≡◌};

use asn_core::{Tag, TagTree};

/// States whether a field may be absent, and whether it then has a default.
#[derive(Clone, Copy)]
pub enum Presence {
    /// The field has to be present.
    Required,
    /// The field may be absent (OPTIONAL).
    Optional,
    /// The field may be absent and then has a value all the same (DEFAULT).
    Default,
}

/// Describes a field of a SEQUENCE or SET (X.680, sections 25 and 27): a row of a table.
#[derive(Clone, Copy)]
pub struct Field {
    /// Holds its place among all fields: those of the root, and then the extension additions.
    pub index: usize,
    /// Holds its tag, with automatic tags the context tag of its place.
    pub tag: Tag,
    /// Holds the tags that its value may begin with.
    pub tag_tree: TagTree,
    /// States whether it may be absent.
    pub presence: Presence,
    /// Holds its name, an identifier.
    pub name: &'static str,
}

/// Makes rows, one call for each presence.
impl Field {
    /// Returns a field that has to be present.
    pub fn new_required(index: usize, tag: Tag, tag_tree: TagTree, name: &'static str) -> Field
        ensures { result ≡ record {
          index = index;
          tag = tag;
          tag_tree = tag_tree;
          presence = Presence.Required;
          name = name.entry;
        } }
    {
        Field {
            index,
            tag,
            tag_tree,
            presence: Presence::Required,
            name,
        }
    }

    /// Returns a field that may be absent.
    pub fn new_optional(index: usize, tag: Tag, tag_tree: TagTree, name: &'static str) -> Field
        ensures { result ≡ record {
          index = index;
          tag = tag;
          tag_tree = tag_tree;
          presence = Presence.Optional;
          name = name.entry;
        } }
    {
        Field {
            index,
            tag,
            tag_tree,
            presence: Presence::Optional,
            name,
        }
    }

    /// Returns a field that is absent where it has its default.
    pub fn new_default(index: usize, tag: Tag, tag_tree: TagTree, name: &'static str) -> Field
        ensures { result ≡ record {
          index = index;
          tag = tag;
          tag_tree = tag_tree;
          presence = Presence.Default;
          name = name.entry;
        } }
    {
        Field {
            index,
            tag,
            tag_tree,
            presence: Presence::Default,
            name,
        }
    }
}

/// Holds a table: the fields of a type, in order.
#[derive(Clone, Copy)]
pub struct Fields {
    /// Holds the rows.
    pub items: &'static [Field],
}

/// Makes a table of rows.
impl Fields {
    /// Returns the table of these fields.
    pub fn from_static(items: &'static [Field]) -> Fields
        ensures { result.items.now ≡ items.now }
    {
        Fields { items }
    }
}

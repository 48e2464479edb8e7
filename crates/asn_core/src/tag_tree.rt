//! Defines the tags of types with and without a tag of their own (X.680, sections 8 and 29).
ghost use Rattle.asn_core.specs.Tags.{smallest, smaller_tag};
ghost use Rattle.std.specs.Prelude.{◌≡◌, IsSome, Some};

use crate::Tag;

/// Holds the tags that a value of a type can have.
#[derive(Clone, Copy)]
pub enum TagTree {
    /// The tag of a type that has one of its own.
    Leaf(Tag),
    /// The tags of the alternatives of a CHOICE type without a tag of its own.
    Choice(&'static [TagTree]),
}

impl TagTree {
    /// Returns the least leaf tag, in the order of tags (X.680, section 8.6). A type is ordered by
    /// it. There has to be one.
    pub fn smallest_tag(&self) -> Tag
        requires { IsSome (smallest self.now) }
        ensures { smallest self.now ≡ Some result }
    {
        self.least_leaf().unwrap()
    }

    /// Returns the least leaf tag, if there is one.
    pub fn least_leaf(&self) -> Option<Tag>
        ensures { result ≡ smallest self.now }
    {
        match self {
            TagTree::Leaf(tag) => Some(*tag),
            TagTree::Choice(parts) => {
                let mut least = None;
                for part in parts.iter() {
                    least = smaller(least, part.least_leaf());
                }
                least
            }
        }
    }
}

/// Returns the smaller of two tags, where an absent tag is above all.
fn smaller(a: Option<Tag>, b: Option<Tag>) -> Option<Tag>
    ensures { result ≡ smaller_tag a b }
{
    match (a, b) {
        (Some(a), Some(b)) => Some(if b < a { b } else { a }),
        (Some(a), None) => Some(a),
        (None, b) => b,
    }
}

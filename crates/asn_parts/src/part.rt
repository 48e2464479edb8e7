//! Defines what is seen of a type at one of its parts.
ghost use Rattle.asn_model.specs.Components.{component_names};
ghost use Rattle.asn_model.specs.Shape.{Shape as AbstractShape};
ghost use Rattle.asn_model.specs.Shape.{alternative_at, identifiers, is_item};
ghost use Rattle.asn_coding.specs.SetFields.{component_at};
ghost use Rattle.asn_parts.specs.Chain.{bodies_of};
ghost use Rattle.asn_parts.specs.Parts.{IsKind, alternative_of, component_of};
ghost use Rattle.asn_parts.specs.Listed.{alternatives_in, fields_in, items_in, root_count_in};
ghost use Rattle.std.specs.Prelude.{◌≡◌, ◌<◌, List, [], Some, length, option_map};

use crate::Loops;
use asn_core::Tag;
use asn_model::{Alphabet, PresenceShape};

/// Describes a type whose values have no parts, but for ENUMERATED.
#[derive(Clone, Copy)]
pub enum LeafPart {
    /// Is NULL.
    Null,
    /// Is BOOLEAN.
    Bool,
    /// Is INTEGER, from the least to the greatest number, in a number of bits.
    Int {
        /// Holds the least number.
        least: i128,
        /// Holds the greatest number.
        greatest: u128,
        /// Counts the bits, which an overflow states.
        width: u32,
    },
    /// Is BIT STRING.
    Bits {
        /// Holds the number of bits, where the type fixes it.
        fixed: Option<usize>,
    },
    /// Is OCTET STRING.
    Octets,
    /// Is a value of any type, which is held as octets.
    Any,
    /// Is OBJECT IDENTIFIER.
    Oid,
    /// Is a character string type other than BMPString.
    Str {
        /// Names its characters.
        alphabet: Alphabet,
    },
    /// Is BMPString.
    Bmp,
    /// Is UTCTime.
    Utc,
    /// Is GeneralizedTime.
    Gen,
    /// Is DATE.
    Day,
    /// Is a number from 2^63 to 2^64-1, as its digits.
    Decimal,
}

/// States the kind of a part, with the parts that it holds without a name. `P` is a handle of a
/// part.
#[derive(Clone, Copy)]
pub enum PartKind<P> {
    /// Has values without parts.
    Leaf(LeafPart),
    /// Is ENUMERATED.
    Enumerated,
    /// Is SEQUENCE.
    Sequence,
    /// Is SET.
    Set,
    /// Is SEQUENCE OF these elements.
    ListOf(P),
    /// Is SET OF these elements.
    SetOf(P),
    /// Is a list of these entries, in which the last one of a key counts.
    Table(P),
    /// Is CHOICE.
    Choice,
    /// Is a loop of this body.
    Loop(P),
    /// Is the loop around it with this number, where 0 is the innermost.
    Back(u32),
}

/// Describes a field of a SEQUENCE or SET.
#[derive(Clone, Copy)]
pub struct PartField<'a, P> {
    /// Holds the field's name.
    pub name: &'a str,
    /// Holds the smallest tag that its value may begin with.
    pub tag: Tag,
    /// States whether it may be absent.
    pub presence: &'a PresenceShape,
    /// Shows the type of its value.
    pub part: P,
    /// States whether it is an extension addition.
    pub is_addition: bool,
}

/// Describes an alternative of a CHOICE.
#[derive(Clone, Copy)]
pub struct PartAlternative<'a, P> {
    /// Holds the identifier that stands before the payload.
    pub identifier: &'a str,
    /// Shows the type of the payload.
    pub part: P,
}

/// Is a handle of a part of a type, by which values are read and written. A type may be held as a
/// tree or in any other way that can show these.
pub trait Part: Copy {
    // The shape that is meant where these bodies of loops are open around the part, the innermost
    // first. Each `back` in it means one of those loops.
    ghost shape: { List Self → Self → AbstractShape };

    /// Returns the kind of the part, which stands within these loops.
    fn kind(&self, around: &Loops<'_, Self>) -> PartKind<Self>
        ensures { IsKind shape (bodies_of around.now) result
            (shape (bodies_of around.now) self.now) };

    /// Returns the number of fields of a SEQUENCE or SET, extension additions included. Any other
    /// part has none.
    fn field_count(&self) -> usize
        ensures { result ≡ length (fields_in (shape [] self.now)) };

    /// Returns the number of those fields that are no extension additions.
    fn root_count(&self) -> usize
        ensures { (around : List Self) → result ≡ root_count_in (shape around self.now) };

    /// Returns the field at a place, where extension additions come last.
    fn field(&self, place: usize) -> PartField<'_, Self>
        requires { place < length (fields_in (shape [] self.now)) }
        ensures { (around : List Self)
            → component_at (fields_in (shape around self.now)) place
            ≡ Some (component_of (shape around) result) };

    /// Returns the number of alternatives of a CHOICE, extension additions included. Any other part
    /// has none.
    fn alternative_count(&self) -> usize
        ensures { result ≡ length (identifiers (alternatives_in (shape [] self.now))) };

    /// Returns the alternative at a place, where extension additions come last, or `None` past
    /// them.
    fn alternative(&self, place: usize) -> Option<PartAlternative<'_, Self>>
        ensures { (around : List Self)
            → alternative_at (alternatives_in (shape around self.now)) place
            ≡ option_map (alternative_of (shape around)) result };

    /// Returns whether an ENUMERATED has an item of this identifier. Any other part has none.
    fn has_item(&self, identifier: &str) -> bool
        ensures { (around : List Self)
            → result ≡ is_item (items_in (shape around self.now)) identifier.now };

    /// Returns the number of items of an ENUMERATED, extension additions included. Any other part
    /// has none.
    fn item_count(&self) -> usize
        ensures { (around : List Self) → result ≡ length (items_in (shape around self.now)) };

    // The names of fields are the same within all loops.
    ghost same_names: { (around : List Self) (part : Self)
        → component_names (fields_in (Self.shape around part))
        ≡ component_names (fields_in (Self.shape [] part)) };

    // So are the identifiers of alternatives.
    ghost same_identifiers: { (around : List Self) (part : Self)
        → identifiers (alternatives_in (Self.shape around part))
        ≡ identifiers (alternatives_in (Self.shape [] part)) };
}

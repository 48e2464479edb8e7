//! Values without parts, as encoders take them and as decoders answer them.
ghost use Rattle.asn_model.specs.Leaf.{needed};
ghost use Rattle.asn_model.specs.Notation.{notation_of};
ghost use Rattle.avn_grammar.specs.Chars.{all};
ghost use Rattle.avn_grammar.specs.WellFormed.{is_octet, is_arc};
ghost use Rattle.std.specs.Prelude.{true, ◌≡◌};

use crate::words;
use asn_core::{Bits, Codec, ObjectIdentifier, WholeNumber};

/// The kinds of values without parts that the notations distinguish.
#[derive(Clone, Copy)]
pub enum LeafKind {
    /// A NULL.
    Null,
    /// A BOOLEAN.
    Boolean,
    /// An INTEGER.
    Number,
    /// A character string.
    Text,
    /// The text of a time, which is returned as `Text`.
    Time,
    /// The text of a date, which is returned as `Text`.
    Date,
    /// The name of an item of an enumeration.
    Item,
    /// An octet string.
    Octets,
    /// A value of any type, as the octets of its encoding.
    Any,
    /// An object identifier.
    Oid,
    /// Bits, with the size that the type fixes, if it fixes one.
    Bits(Option<usize>),
}

impl LeafKind {
    /// Returns the words by which a mismatch names the kind.
    pub fn needed(self, codec: Codec) -> &'static str
        ensures { result.now ≡ needed (notation_of codec) self }
    {
        match codec {
            Codec::Avn => match self {
                LeafKind::Null => words::NULL,
                LeafKind::Boolean => words::BOOLEAN,
                LeafKind::Number => words::AVN_NUMBER,
                LeafKind::Text | LeafKind::Time | LeafKind::Date => words::AVN_STRING,
                LeafKind::Item => words::AVN_ITEM,
                LeafKind::Octets | LeafKind::Any => words::AVN_OCTETS,
                LeafKind::Oid => words::AVN_ARCS,
                LeafKind::Bits(_) => words::AVN_BITS,
            },
            _ => match self {
                LeafKind::Null => words::NULL,
                LeafKind::Boolean => words::BOOLEAN,
                LeafKind::Number => words::JER_NUMBER,
                LeafKind::Text => words::JER_STRING,
                LeafKind::Time => words::JER_TIME,
                LeafKind::Date => words::JER_DATE,
                LeafKind::Item => words::JER_ITEM,
                LeafKind::Octets | LeafKind::Any | LeafKind::Bits(Some(_)) => words::JER_DIGITS,
                LeafKind::Oid => words::JER_ARCS,
                LeafKind::Bits(None) => words::JER_BITS,
            },
        }
    }
}

/// A value without parts that is written.
#[derive(Drop)]
pub enum Leaf<'a> {
    /// A NULL.
    Null,
    /// A BOOLEAN.
    Boolean(bool),
    /// An INTEGER.
    Number(WholeNumber),
    /// A character string, or the text of a time or date.
    Text(&'a str),
    /// A text that is handed over, and need not be copied.
    OwnedText(String),
    /// The name of an item of an enumeration.
    Item(&'a str),
    /// An octet string, or the encoding of a value of any type.
    Octets(&'a [u8]),
    /// The arcs of an object identifier.
    Arcs(&'a [u32]),
    /// Bits, with the size that the type fixes, if it fixes one.
    Bits(&'a Bits, Option<usize>),
}

/// A value without parts that was read.
#[derive(Drop)]
pub enum OwnedLeaf {
    /// A NULL.
    Null,
    /// A BOOLEAN.
    Boolean(bool),
    /// An INTEGER, with nothing inside where the number has more than 128 bits.
    Number(Option<WholeNumber>),
    /// A character string, or the text of a time or date.
    Text(String),
    /// The name of an item of an enumeration, if it has one of that name.
    Item(String),
    /// An octet string.
    Octets(Vec<u8>),
    /// A value of any type, as the octets of its encoding.
    Any(Vec<u8>),
    /// An object identifier.
    Oid(ObjectIdentifier),
    /// Bits, with the size that the type fixes, if it fixes one.
    Bits(Bits, Option<usize>),
}

/// Law: octets are below 256, as their type says.
pub fn are_octets(octets: &[u8])
    ensures { all is_octet octets.now ≡ true }
{
    let _octets = octets;
}

/// Law: arcs are below 2^32, as their type says.
pub fn are_arcs(arcs: &[u32])
    ensures { all is_arc arcs.now ≡ true }
{
    let _arcs = arcs;
}

//! Defines a value of the notation.

/// A value of the notation, with numbers, names and texts as they are written.
#[derive(Drop)]
pub enum AvnValue {
    /// `TRUE` or `FALSE`.
    Boolean(bool),
    /// An optional `-` and digits.
    Integer(String),
    /// The octets.
    OctetString(Vec<u8>),
    /// Bits.
    BitString {
        /// The bits, eight an octet, the first the most significant.
        bytes: Vec<u8>,
        /// How many bits there are.
        bit_length: usize,
    },
    /// `NULL`.
    Null,
    /// The arcs of an object identifier.
    Oid(Vec<u32>),
    /// An optional `-`, digits and optionally a point and digits, or one of `PLUS-INFINITY`,
    /// `MINUS-INFINITY` and `NOT-A-NUMBER`.
    Real(String),
    /// The identifier of an item.
    Enumerated(String),
    /// The fields in order, each a name and a value, or no value where the field is absent.
    Sequence(Vec<(String, Option<AvnValue>)>),
    /// The elements in order.
    SequenceOf(Vec<AvnValue>),
    /// An alternative.
    Choice {
        /// Its identifier.
        identifier: String,
        /// Its value.
        value: Box<AvnValue>,
    },
    /// The text.
    CharString(String),
}

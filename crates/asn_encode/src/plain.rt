//! Encodes the types of the language and of the crates below, but for the integers and texts: each
//! hands itself to the encoder's call.
use crate::{Encode, EncodeKind, Encoder};
use asn_core::{Any, Bits, Constraints, Identifier, ObjectIdentifier, OctetString, Tag};
use asn_fault::EncodeError;
use asn_multisets::{Counts, Multiset};
use asn_types::{PlainKind, SetElement};

/// Encodes BOOLEAN by the call of the encoder.
impl EncodeKind<bool> for PlainKind {
    fn encode_as<E: Encoder>(
        value: &bool,
        encoder: &mut E,
        tag: Tag,
        _constraints: &Constraints,
        identifier: Identifier,
    ) -> Result<(), EncodeError> {
        encoder.encode_bool(tag, *value, identifier)
    }
}

/// Encodes NULL by the call of the encoder.
impl EncodeKind<()> for PlainKind {
    fn encode_as<E: Encoder>(
        value: &(),
        encoder: &mut E,
        tag: Tag,
        _constraints: &Constraints,
        identifier: Identifier,
    ) -> Result<(), EncodeError> {
        encoder.encode_null(tag, identifier)
    }
}

/// Encodes UTF8String by the call of the encoder, without a copy here.
impl EncodeKind<String> for PlainKind {
    fn encode_as<E: Encoder>(
        value: &String,
        encoder: &mut E,
        tag: Tag,
        constraints: &Constraints,
        identifier: Identifier,
    ) -> Result<(), EncodeError> {
        encoder.encode_utf8_string(tag, constraints, value.as_str(), identifier)
    }
}

/// Encodes SEQUENCE OF by the call of the encoder, which encodes each element by its own type.
impl<T: Encode> EncodeKind<Vec<T>> for PlainKind {
    fn encode_as<E: Encoder>(
        value: &Vec<T>,
        encoder: &mut E,
        tag: Tag,
        constraints: &Constraints,
        identifier: Identifier,
    ) -> Result<(), EncodeError> {
        encoder.encode_sequence_of::<T>(tag, value.as_slice(), constraints, identifier)
    }
}

/// Encodes BIT STRING by the call of the encoder.
impl EncodeKind<Bits> for PlainKind {
    fn encode_as<E: Encoder>(
        value: &Bits,
        encoder: &mut E,
        tag: Tag,
        constraints: &Constraints,
        identifier: Identifier,
    ) -> Result<(), EncodeError> {
        encoder.encode_bit_string(tag, constraints, value, identifier)
    }
}

/// Encodes OBJECT IDENTIFIER by its arcs.
impl EncodeKind<ObjectIdentifier> for PlainKind {
    fn encode_as<E: Encoder>(
        value: &ObjectIdentifier,
        encoder: &mut E,
        tag: Tag,
        _constraints: &Constraints,
        identifier: Identifier,
    ) -> Result<(), EncodeError> {
        encoder.encode_object_identifier(tag, value.arcs(), identifier)
    }
}

/// Encodes OCTET STRING by its octets.
impl EncodeKind<OctetString> for PlainKind {
    fn encode_as<E: Encoder>(
        value: &OctetString,
        encoder: &mut E,
        tag: Tag,
        constraints: &Constraints,
        identifier: Identifier,
    ) -> Result<(), EncodeError> {
        encoder.encode_octet_string(tag, constraints, value.as_bytes(), identifier)
    }
}

/// Encodes a value of any type by the octets of its encoding.
impl EncodeKind<Any> for PlainKind {
    fn encode_as<E: Encoder>(
        value: &Any,
        encoder: &mut E,
        tag: Tag,
        _constraints: &Constraints,
        identifier: Identifier,
    ) -> Result<(), EncodeError> {
        encoder.encode_any(tag, value, identifier)
    }
}

/// Encodes SET OF by the call of the encoder, which encodes each element by its own type.
impl<T: Encode + SetElement, M: Counts<T>> EncodeKind<Multiset<T, M>> for PlainKind {
    fn encode_as<E: Encoder>(
        value: &Multiset<T, M>,
        encoder: &mut E,
        tag: Tag,
        constraints: &Constraints,
        identifier: Identifier,
    ) -> Result<(), EncodeError> {
        encoder.encode_set_of::<T, M>(tag, value, constraints, identifier)
    }
}

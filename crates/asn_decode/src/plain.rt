//! Decodes the types of the language and of the crates below, but for the integers and texts: each
//! is what the decoder's call returns.
use crate::{Decode, DecodeKind, Decoder};
use asn_core::{Any, Bits, Constraints, ObjectIdentifier, OctetString, Tag};
use asn_fault::DecodeError;
use asn_multisets::{Counts, Multiset};
use asn_types::{PlainKind, SetElement};

/// Decodes BOOLEAN by the call of the decoder.
impl DecodeKind<bool> for PlainKind {
    fn decode_as<D: Decoder>(
        decoder: &mut D,
        tag: Tag,
        _constraints: &Constraints,
    ) -> Result<bool, DecodeError> {
        decoder.decode_bool(tag)
    }

    #[inline(always)]
    fn at_hand_as<D: Decoder>(decoder: &mut D) -> Option<bool> {
        match decoder.flag_at_hand() {
            Some(flag) => {
                decoder.pass();
                Some(flag)
            }
            None => None,
        }
    }
}

/// Decodes NULL by the call of the decoder.
impl DecodeKind<()> for PlainKind {
    fn decode_as<D: Decoder>(
        decoder: &mut D,
        tag: Tag,
        _constraints: &Constraints,
    ) -> Result<(), DecodeError> {
        decoder.decode_null(tag)
    }
}

/// Decodes UTF8String by the call of the decoder, whose text it takes as it is.
impl DecodeKind<String> for PlainKind {
    fn decode_as<D: Decoder>(
        decoder: &mut D,
        tag: Tag,
        constraints: &Constraints,
    ) -> Result<String, DecodeError> {
        decoder.decode_utf8_string(tag, constraints)
    }
}

/// Decodes SEQUENCE OF by the call of the decoder, which decodes each element by its own type.
impl<T: Decode> DecodeKind<Vec<T>> for PlainKind {
    fn decode_as<D: Decoder>(
        decoder: &mut D,
        tag: Tag,
        constraints: &Constraints,
    ) -> Result<Vec<T>, DecodeError> {
        decoder.decode_sequence_of::<T>(tag, constraints)
    }
}

/// Decodes BIT STRING by the call of the decoder.
impl DecodeKind<Bits> for PlainKind {
    fn decode_as<D: Decoder>(
        decoder: &mut D,
        tag: Tag,
        constraints: &Constraints,
    ) -> Result<Bits, DecodeError> {
        decoder.decode_bit_string(tag, constraints)
    }
}

/// Decodes OBJECT IDENTIFIER by the call of the decoder.
impl DecodeKind<ObjectIdentifier> for PlainKind {
    fn decode_as<D: Decoder>(
        decoder: &mut D,
        tag: Tag,
        _constraints: &Constraints,
    ) -> Result<ObjectIdentifier, DecodeError> {
        decoder.decode_object_identifier(tag)
    }
}

/// Decodes OCTET STRING, whose octets it takes as they are.
impl DecodeKind<OctetString> for PlainKind {
    fn decode_as<D: Decoder>(
        decoder: &mut D,
        tag: Tag,
        constraints: &Constraints,
    ) -> Result<OctetString, DecodeError> {
        let octets = decoder.decode_octet_string(tag, constraints)?;
        Ok(OctetString::from_vec(octets))
    }
}

/// Decodes a value of any type, as the octets of its encoding.
impl DecodeKind<Any> for PlainKind {
    fn decode_as<D: Decoder>(
        decoder: &mut D,
        tag: Tag,
        _constraints: &Constraints,
    ) -> Result<Any, DecodeError> {
        decoder.decode_any(tag)
    }
}

/// Decodes SET OF by the call of the decoder, which decodes each element by its own type.
impl<T: Decode + SetElement, M: Counts<T>> DecodeKind<Multiset<T, M>> for PlainKind {
    fn decode_as<D: Decoder>(
        decoder: &mut D,
        tag: Tag,
        constraints: &Constraints,
    ) -> Result<Multiset<T, M>, DecodeError> {
        decoder.decode_set_of::<T, M>(tag, constraints)
    }
}

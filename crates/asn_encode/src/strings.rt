//! Writes the values of the restricted character string types (X.680, section 41).
use crate::{EncodeText, Encoder};
use asn_fault::EncodeError;
use asn_model::{Leaf, are_octets};
use asn_strings::laws::{text_is_utf8, units_are_within};
use asn_strings::{BmpString, RestrictedOctets, RestrictedString, UnitFault};
use asn_types::{OctetsSet, TextSet};

/// Writes a string whose characters are of a set as the text that it is.
impl<C: TextSet> EncodeText for RestrictedString<C> {
    fn put_text<E: Encoder>(&self, encoder: &mut E) -> Result<(), EncodeError> {
        text_is_utf8(self);
        encoder.put_leaf(Leaf::Text(self.as_str()))
    }
}

/// Writes a string of octets as their text, where they are UTF-8.
impl<C: OctetsSet> EncodeText for RestrictedOctets<C> {
    fn put_text<E: Encoder>(&self, encoder: &mut E) -> Result<(), EncodeError> {
        let octets = self.octets();
        are_octets(octets);
        match str::from_utf8(octets) {
            Ok(text) => encoder.put_leaf(Leaf::Text(text)),
            Err(error) => Err(encoder.no_unicode(error.valid_up_to())),
        }
    }
}

/// Writes a BMPString as the text of its units, where there is no surrogate.
impl EncodeText for BmpString {
    fn put_text<E: Encoder>(&self, encoder: &mut E) -> Result<(), EncodeError> {
        units_are_within(self.units());
        match self.to_text(encoder.allocator()) {
            Ok(text) => encoder.put_leaf(Leaf::OwnedText(text)),
            Err(UnitFault::Surrogate { place }) => Err(encoder.no_unicode(place)),
            Err(UnitFault::OutOfMemory) => Err(EncodeError::out_of_memory(encoder.codec())),
        }
    }
}

//! Defines whole numbers that are kept as the text of their digits.
ghost use Rattle.asn_fault.specs.Failure.{Cause, at_root, failure_of};
ghost use Rattle.asn_model.specs.Decimals.{is_decimal};
ghost use Rattle.asn_model.specs.Leaf.{no_decimal};
ghost use Rattle.asn_model.specs.Shape.{Shape as AbstractShape};
ghost use Rattle.asn_model.specs.Value.{Value};
ghost use Rattle.std.specs.Fmt.{decimal};
ghost use Rattle.std.specs.Prelude.{◌≡◌, ◌≤◌, ◌<◌, ◌^◌, ◌⊎◌, IfSome, IsTrue, SomeIff, is_some, refl};

use asn_core::{Codec, Tag, TagTree};
use asn_encode::{EncodeText, Encoder};
use asn_fault::{DecodeError, EncodeError};
use asn_model::words::NO_DECIMAL;
use asn_model::{Leaf, LeafKind, Shape};
use asn_types::{OfKind, TextKind, TextType};
use std::alloc::Global;
use std::marker::Model;

/// A whole number from 2^63 to 2^64-1, which is written as the text of its decimal digits: one that
/// `u64` has and `i64` has not. Contracts see the number.
#[derive(Drop)]
pub struct Decimal {
    /// At least 2^63.
    number: u64,
}

impl Model for Decimal {
    ghost use Rattle.std.specs.Prelude.{◌≤◌, ◌<◌, ◌^◌, ℕ};

    ghost Value = { ℕ };

    ghost view = { λ d. d.number };

    ghost invariant = { λ d. (2 ^ 63 ≤ d.number) × (d.number < 2 ^ 64) };
}

impl Decimal {
    /// The least number.
    const LEAST: u64 = 1 << 63;

    /// Returns the number, or none where it is below 2^63.
    pub fn new(number: u64) -> Option<Decimal>
        ensures { SomeIff result (2 ^ 63 ≤ number) number }
    {
        if number < Self::LEAST {
            return None;
        }
        Some(Decimal { number })
    }

    /// Returns the number.
    pub fn number(&self) -> u64
        ensures number { result ≡ self.now }
        ensures range { (2 ^ 63 ≤ self.now) × (self.now < 2 ^ 64) }
    {
        self.number
    }

    /// Returns the number of the digits, or none where the text isn't the digits of one, as it is
    /// written: without a sign and without a leading zero.
    pub fn of_digits(text: &str) -> Option<Decimal>
        ensures read { IfSome result (λ n. text.now ≡ decimal n) }
        ensures is { is_some result ≡ is_decimal text.now }
    {
        let first = *text.as_bytes().first()?;
        if first <= b'0' {
            return None;
        }
        Decimal::new(text.parse::<u64>().ok()?)
    }
}

/// Returns the refusal of a text that is no such number. Memory may run out.
pub fn no_decimal(alloc: Global, text: &str, codec: Codec) -> DecodeError
    ensures { (failure_of result ≡ at_root (no_decimal text.now) codec)
        ⊎ (failure_of result ≡ at_root Cause.out_of_memory codec) }
{
    match format!(in alloc; "{NO_DECIMAL}{text}") {
        Ok(msg) => DecodeError::custom(msg, codec),
        Err(_) => DecodeError::out_of_memory(codec),
    }
}

impl OfKind for Decimal {
    type Kind = TextKind;
}

impl TextType for Decimal {
    const TEXT_TAG: Tag = Tag::UTF8_STRING;

    ghost shape = { AbstractShape.decimal };

    ghost value = { λ n. Value.text (decimal n) };

    fn text_tags() -> (Tag, TagTree, bool) {
        (Tag::UTF8_STRING, TagTree::Leaf(Tag::UTF8_STRING), false)
    }

    fn text_shape() -> Shape {
        Shape::Decimal
    }

    fn text_kind() -> LeafKind {
        LeafKind::Text
    }

    fn of_text(alloc: Global, text: String, codec: Codec) -> Result<Decimal, DecodeError> {
        match Decimal::of_digits(text.as_str()) {
            Some(decimal) => Ok(decimal),
            None => Err(no_decimal(alloc, text.as_str(), codec)),
        }
    }

    ghost any_size = { λ n. refl };

    ghost any_value = { λ n x. refl };

    ghost readable = { refl };
}

impl EncodeText for Decimal {
    fn put_text<E: Encoder>(&self, encoder: &mut E) -> Result<(), EncodeError> {
        let number = self.number();
        match format!(in encoder.allocator(); "{number}") {
            Ok(text) => encoder.put_leaf(Leaf::OwnedText(text)),
            Err(_) => Err(EncodeError::out_of_memory(encoder.codec())),
        }
    }
}

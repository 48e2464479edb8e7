//! Defines encoding: `Encoder`, which a codec implements, and `Encode`, which a type implements. A
//! value of a type becomes one slot more of what an encoder holds.
//!
//! A codec writes the calls without a body. The others are final, and are proved here once for
//! every codec.
ghost use Rattle.asn_core.specs.ObjectIdentifiers.{is_object_identifier};
ghost use Rattle.asn_model.specs.Fixed.{fixed_size};
ghost use Rattle.asn_model.specs.Leaf.{leaf_value};
ghost use Rattle.asn_model.specs.Notation.{Notation, notation_of};
ghost use Rattle.asn_model.specs.Shape.{Shape, Alphabet, all_alternatives, all_fields, field_names};
ghost use Rattle.asn_model.specs.Shape.{alternative_tagged};
ghost use Rattle.asn_fault.specs.EncodeCause.{EncodeCause};
ghost use Rattle.asn_model.specs.Writable.{no_unicode};
ghost use Rattle.asn_coding.specs.FieldAnswer.{AddsSlot};
ghost use Rattle.asn_coding.specs.Tables.{names_of};
ghost use Rattle.asn_names.specs.Rows.{row_names};
ghost use Rattle.asn_names.specs.Text.{name_text};
ghost use Rattle.asn_types.specs.TextTypes.{IsEncodeFailure, no_teletex};
ghost use Rattle.asn_model.specs.Value.{Value, bag_of, values};
ghost use Rattle.asn_coding.specs.Writing.{Frame, push, close, as_list, as_members, as_choice, Maps};
ghost use Rattle.asn_coding.specs.Writing.{ClosesSet, Written, WrittenUnder, FailsToEncode, Puts, ScopeRan};
ghost use Rattle.asn_coding.specs.Writing.{FailsToEncodeUnder, FailsToFill, IsOutOfMemory};
ghost use Rattle.std.specs.Fn.{FnOnceReturnsAtMut};
ghost use Rattle.std.specs.Prelude.{◌≡◌, ◌⊎◌, pos, ◌∷◌, ◌++◌, [], ℕ, List, Option, Some, None, Ok};
ghost use Rattle.std.specs.Prelude.{Err, true, map, option_map, OnOk, IfErr, IfOk, IfSome, IsErr};
ghost use Rattle.std.specs.Prelude.{IsOk, IsSome, ⊤};

use crate::EncodeText;
use asn_coding::{Field, Name, NameList, TableNames, identifier_of, listed, listed_fields};
use asn_core::{Any, Bits, Codec, Constraints, Identifier, Tag, WholeNumber};
use asn_fault::{EncodeError, EncodeErrorKind};
use asn_integers::IntegerType;
use asn_model::words::NO_TELETEX;
use asn_model::{Leaf, are_arcs, are_octets, fixed_size};
use asn_multisets::{Counts, Multiset};
use asn_strings::{
    BmpString, GeneralString, GraphicString, Ia5String, NumericString, PrintableString,
    TeletexString, VisibleString,
};
use asn_times::{Date, GeneralizedTime, UtcTime};
use asn_types::{AsnType, Choice, Constructed, Enumerated, SetElement};
use std::alloc::Global;

/// Encodes in one notation. Contracts see an encoder as a list of open frames, each a list of
/// slots: a value or absent.
///
/// Unless stated otherwise the last frame has one more slot after a call, the value.
///
/// # Errors
///
/// Unless stated otherwise the kind of the first part of the value that the notation cannot encode,
/// and else `OutOfMemory` alone. What an encoder holds after an error is unspecified.
pub trait Encoder {
    // The notation that is written.
    ghost notation: { Notation };

    // The encoder may have these open frames, the last one first. A codec's tree need not determine
    // its value, so this is a relation.
    ghost holds: { Self → List Frame → Type 0 };

    /// Returns the codec of its errors.
    fn codec(&self) -> Codec
        ensures { notation_of result ≡ notation };

    /// Returns the allocator that it takes memory from.
    fn allocator(&self) -> Global;

    /// Puts a value without parts into the last frame. All calls for such values go through it.
    fn put_leaf(&mut self, leaf: Leaf<'_>) -> Result<(), EncodeError>
        ensures put { OnOk result (Puts holds notation (leaf_value leaf.entry) self.old self.new) }
        ensures refused { IfErr result (FailsToEncode notation (leaf_value leaf.entry)) };

    /// Returns the refusal of a text that stops being Unicode after so many octets or 16-bit units.
    /// Memory may run out.
    fn no_unicode(&self, place: usize) -> EncodeError
        ensures { IsEncodeFailure notation (no_unicode notation place) result };

    /// Puts an absent slot into the last frame.
    ///
    /// # Errors
    ///
    /// `OutOfMemory` alone.
    fn encode_absent(&mut self) -> Result<(), EncodeError>
        ensures written { OnOk result (Maps holds (push None) self.old self.new) }
        ensures refused { IfErr result (IsOutOfMemory notation) };

    /// Opens an empty frame, which takes the slots until it is closed.
    ///
    /// # Errors
    ///
    /// `OutOfMemory` alone.
    fn open_frame(&mut self) -> Result<(), EncodeError>
        ensures opened { OnOk result (Maps holds (λ fs. [] ∷ fs) self.old self.new) }
        ensures refused { IfErr result (IsOutOfMemory notation) };

    /// Closes the last frame, and puts it into the one before it as a list of its present values.
    ///
    /// # Errors
    ///
    /// `OutOfMemory` alone.
    fn close_list(&mut self) -> Result<(), EncodeError>
        ensures closed { OnOk result (Maps holds (close as_list) self.old self.new) }
        ensures refused { IfErr result (IsOutOfMemory notation) };

    /// Closes the last frame, and puts it into the one before it as the set of its present values:
    /// written in byte order of their texts.
    ///
    /// # Errors
    ///
    /// `OutOfMemory` alone.
    fn close_set(&mut self) -> Result<(), EncodeError>
        ensures closed { OnOk result (ClosesSet holds notation self.old self.new) }
        ensures refused { IfErr result (IsOutOfMemory notation) };

    /// Closes the last frame, and puts it into the one before it as members of these names.
    ///
    /// # Errors
    ///
    /// `OutOfMemory` alone.
    fn close_members<N: NameList>(&mut self, names: &N) -> Result<(), EncodeError>
        ensures closed { OnOk result (Maps holds
            (close (as_members (row_names (N.rows names.now)))) self.old self.new) }
        ensures refused { IfErr result (IsOutOfMemory notation) };

    /// Closes the last frame, and puts its first slot into the one before it as the payload of a
    /// choice with this identifier.
    ///
    /// # Errors
    ///
    /// `OutOfMemory` alone.
    fn close_choice(&mut self, identifier: Name<'_>) -> Result<(), EncodeError>
        ensures closed { OnOk result (Maps holds (close
            (as_choice (name_text identifier.entry))) self.old self.new) }
        ensures refused { IfErr result (IsOutOfMemory notation) };

    /// Closes the last frame, and puts it into the one before it as members, by the names of these
    /// fields: the root fields, and then the extension additions.
    ///
    /// # Errors
    ///
    /// `OutOfMemory` alone.
    final fn close_fields(&mut self, root: &[Field], additions: &[Field]) -> Result<(), EncodeError>
        ensures closed { OnOk result (Maps holds (close
            (as_members (names_of root.now ++ names_of additions.now))) self.old self.new) }
        ensures refused { IfErr result (IsOutOfMemory notation) }
    {
        self.close_members(&TableNames { root, additions })
    }

    /// Encodes a BOOLEAN.
    final fn encode_bool(
        &mut self,
        tag: Tag,
        value: bool,
        identifier: Identifier,
    ) -> Result<(), EncodeError>
        ensures written { OnOk result (Written holds notation Shape.boolean
            (Value.boolean value) self.old self.new) }
        ensures refused { IfErr result (FailsToEncode notation (Value.boolean value)) }
    {
        self.put_leaf(Leaf::Boolean(value))
    }

    /// Encodes a NULL.
    #[inline(always)]
    final fn encode_null(&mut self, tag: Tag, identifier: Identifier) -> Result<(), EncodeError>
        ensures written { OnOk result
            (Written holds notation Shape.null Value.null self.old self.new) }
        ensures refused { IfErr result (FailsToEncode notation Value.null) }
    {
        self.put_leaf(Leaf::Null)
    }

    /// Encodes an INTEGER, whose constraints are not checked.
    #[inline(always)]
    final fn encode_integer<I: IntegerType>(
        &mut self,
        tag: Tag,
        constraints: &Constraints,
        value: &I,
        identifier: Identifier,
    ) -> Result<(), EncodeError>
        ensures written { OnOk result (Written holds notation
            (Shape.int I.LEAST (pos I.GREATEST) I.WIDTH)
            (Value.int (I.number value.now)) self.old self.new) }
        ensures refused { IfErr result (FailsToEncode notation (Value.int (I.number value.now))) }
    {
        let (negative, magnitude) = value.parts();
        self.put_leaf(Leaf::Number(WholeNumber {
            negative,
            magnitude,
        }))
    }

    /// Encodes a UTF8String.
    final fn encode_utf8_string(
        &mut self,
        tag: Tag,
        constraints: &Constraints,
        value: &str,
        identifier: Identifier,
    ) -> Result<(), EncodeError>
        ensures written { OnOk result (Written holds notation (Shape.text Alphabet.utf8)
            (Value.text value.now) self.old self.new) }
        ensures refused { IfErr result (FailsToEncode notation (Value.text value.now)) }
    {
        self.put_leaf(Leaf::Text(value))
    }

    /// Encodes an item of an ENUMERATED type, by its identifier.
    final fn encode_enumerated<T: Enumerated>(
        &mut self,
        tag: Tag,
        value: &T,
        identifier: Identifier,
    ) -> Result<(), EncodeError>
        ensures written { OnOk result (Written holds notation (Shape.enum T.items T.added)
            (Value.item (T.item value.now)) self.old self.new) }
        ensures refused { IfErr result (FailsToEncode notation (Value.item (T.item value.now))) }
    {
        self.put_leaf(Leaf::Item(value.identifier()))
    }

    /// Encodes an OCTET STRING.
    final fn encode_octet_string(
        &mut self,
        tag: Tag,
        constraints: &Constraints,
        value: &[u8],
        identifier: Identifier,
    ) -> Result<(), EncodeError>
        ensures written { OnOk result (Written holds notation Shape.octets
            (Value.octets value.now) self.old self.new) }
        ensures refused { IfErr result (FailsToEncode notation (Value.octets value.now)) }
    {
        // A law: the bytes of a slice are octets.
        are_octets(value);
        self.put_leaf(Leaf::Octets(value))
    }

    /// Encodes a value of any type, by the octets of its encoding.
    final fn encode_any(
        &mut self,
        tag: Tag,
        value: &Any,
        identifier: Identifier,
    ) -> Result<(), EncodeError>
        ensures written { OnOk result (Written holds notation Shape.any
            (Value.octets value.now) self.old self.new) }
        ensures refused { IfErr result (FailsToEncode notation (Value.octets value.now)) }
    {
        let octets = value.as_bytes();
        are_octets(octets);
        self.put_leaf(Leaf::Octets(octets))
    }

    /// Encodes an OBJECT IDENTIFIER, by its arcs, which are written even where they are those of no
    /// object identifier.
    final fn encode_object_identifier(
        &mut self,
        tag: Tag,
        value: &[u32],
        identifier: Identifier,
    ) -> Result<(), EncodeError>
        ensures put { OnOk result (Puts holds notation (Value.arcs value.now) self.old self.new) }
        ensures written { is_object_identifier value.now ≡ true → OnOk result
            (Written holds notation Shape.oid (Value.arcs value.now) self.old self.new) }
        ensures refused { IfErr result (FailsToEncode notation (Value.arcs value.now)) }
    {
        are_arcs(value);
        self.put_leaf(Leaf::Arcs(value))
    }

    /// Encodes a BIT STRING, of a fixed size where the constraints fix one.
    final fn encode_bit_string(
        &mut self,
        tag: Tag,
        constraints: &Constraints,
        value: &Bits,
        identifier: Identifier,
    ) -> Result<(), EncodeError>
        ensures written { OnOk result (WrittenUnder holds notation (fixed_size constraints.now)
            (Shape.bits None) (Value.bits value.now None) self.old self.new) }
        ensures refused { IfErr result (FailsToEncodeUnder notation (fixed_size constraints.now)
            (Shape.bits None) (Value.bits value.now None)) }
    {
        self.put_leaf(Leaf::Bits(value, fixed_size(constraints)))
    }

    /// Writes a NumericString.
    final fn encode_numeric_string(
        &mut self,
        tag: Tag,
        constraints: &Constraints,
        value: &NumericString,
        identifier: Identifier,
    ) -> Result<(), EncodeError>
        ensures written { OnOk result (Written holds notation (Shape.text Alphabet.numeric)
            (Value.text value.now) self.old self.new) }
        ensures refused { IfErr result (FailsToEncode notation (Value.text value.now)) }
    {
        value.put_text(self)
    }

    /// Writes a PrintableString.
    final fn encode_printable_string(
        &mut self,
        tag: Tag,
        constraints: &Constraints,
        value: &PrintableString,
        identifier: Identifier,
    ) -> Result<(), EncodeError>
        ensures written { OnOk result (Written holds notation (Shape.text Alphabet.printable)
            (Value.text value.now) self.old self.new) }
        ensures refused { IfErr result (FailsToEncode notation (Value.text value.now)) }
    {
        value.put_text(self)
    }

    /// Writes a VisibleString.
    final fn encode_visible_string(
        &mut self,
        tag: Tag,
        constraints: &Constraints,
        value: &VisibleString,
        identifier: Identifier,
    ) -> Result<(), EncodeError>
        ensures written { OnOk result (Written holds notation (Shape.text Alphabet.visible)
            (Value.text value.now) self.old self.new) }
        ensures refused { IfErr result (FailsToEncode notation (Value.text value.now)) }
    {
        value.put_text(self)
    }

    /// Writes an IA5String.
    final fn encode_ia5_string(
        &mut self,
        tag: Tag,
        constraints: &Constraints,
        value: &Ia5String,
        identifier: Identifier,
    ) -> Result<(), EncodeError>
        ensures written { OnOk result (Written holds notation (Shape.text Alphabet.ia5)
            (Value.text value.now) self.old self.new) }
        ensures refused { IfErr result (FailsToEncode notation (Value.text value.now)) }
    {
        value.put_text(self)
    }

    /// Writes a GeneralString. One that isn't UTF-8 is refused.
    final fn encode_general_string(
        &mut self,
        tag: Tag,
        constraints: &Constraints,
        value: &GeneralString,
        identifier: Identifier,
    ) -> Result<(), EncodeError>
        ensures written { OnOk result (Written holds notation (Shape.text Alphabet.general)
            (Value.text value.now) self.old self.new) }
        ensures refused { IfErr result (FailsToEncode notation (Value.text value.now)) }
    {
        value.put_text(self)
    }

    /// Writes a GraphicString. One that isn't UTF-8 is refused.
    final fn encode_graphic_string(
        &mut self,
        tag: Tag,
        constraints: &Constraints,
        value: &GraphicString,
        identifier: Identifier,
    ) -> Result<(), EncodeError>
        ensures written { OnOk result (Written holds notation (Shape.text Alphabet.graphic)
            (Value.text value.now) self.old self.new) }
        ensures refused { IfErr result (FailsToEncode notation (Value.text value.now)) }
    {
        value.put_text(self)
    }

    /// Writes a BMPString. One with a surrogate is refused.
    final fn encode_bmp_string(
        &mut self,
        tag: Tag,
        constraints: &Constraints,
        value: &BmpString,
        identifier: Identifier,
    ) -> Result<(), EncodeError>
        ensures written { OnOk result (Written holds notation Shape.bmp
            (Value.units value.now) self.old self.new) }
        ensures refused { IfErr result (FailsToEncode notation (Value.units value.now)) }
    {
        value.put_text(self)
    }

    /// Writes a UTCTime. One outside the years 1950 to 2049 is refused.
    final fn encode_utc_time(
        &mut self,
        tag: Tag,
        value: &UtcTime,
        identifier: Identifier,
    ) -> Result<(), EncodeError>
        ensures written { OnOk result (Written holds notation Shape.utc (Value.utc value.now)
            self.old self.new) }
        ensures refused { IfErr result (FailsToEncode notation (Value.utc value.now)) }
    {
        value.put_text(self)
    }

    /// Writes a GeneralizedTime. One outside the years 0 to 9999 is refused.
    final fn encode_generalized_time(
        &mut self,
        tag: Tag,
        value: &GeneralizedTime,
        identifier: Identifier,
    ) -> Result<(), EncodeError>
        ensures written { OnOk result (Written holds notation Shape.gen (Value.gen value.now)
            self.old self.new) }
        ensures refused { IfErr result (FailsToEncode notation (Value.gen value.now)) }
    {
        value.put_text(self)
    }

    /// Writes a DATE. One outside the years 0 to 9999 is refused.
    final fn encode_date(
        &mut self,
        tag: Tag,
        value: &Date,
        identifier: Identifier,
    ) -> Result<(), EncodeError>
        ensures written { OnOk result (Written holds notation Shape.day (Value.day value.now)
            self.old self.new) }
        ensures refused { IfErr result (FailsToEncode notation (Value.day value.now)) }
    {
        value.put_text(self)
    }

    /// Refuses a TeletexString, always: with `Custom`, or `OutOfMemory`.
    final fn encode_teletex_string(
        &mut self,
        tag: Tag,
        constraints: &Constraints,
        value: &TeletexString,
        identifier: Identifier,
    ) -> Result<(), EncodeError>
        ensures never { IsErr result }
        ensures refused { IfErr result (IsEncodeFailure notation
            (EncodeCause.custom no_teletex)) }
    {
        match String::from_str(self.allocator(), NO_TELETEX) {
            Ok(msg) => Err(EncodeError::custom(msg, self.codec())),
            Err(_) => Err(EncodeError::out_of_memory(self.codec())),
        }
    }

    /// Refuses a REAL with `RealNotSuppored`, always.
    final fn encode_real(
        &mut self,
        tag: Tag,
        constraints: &Constraints,
        identifier: Identifier,
    ) -> Result<(), EncodeError>
        ensures never { IsErr result }
        ensures kind { IfErr result (λ e. e.kind ≡ EncodeErrorKind.RealNotSuppored) }
        ensures codec { IfErr result (λ e. notation_of e.codec ≡ notation) }
    {
        Err(EncodeError::real_not_supported(self.codec()))
    }

    /// Encodes the value of an optional field.
    final fn encode_some<T: Encode>(
        &mut self,
        value: &T,
        identifier: Identifier,
    ) -> Result<(), EncodeError>
    where
        Self: Sized,
        ensures written { OnOk result (Written holds notation T.shape_of
            (T.value_of value.now) self.old self.new) }
        ensures refused { IfErr result (FailsToEncode notation (T.value_of value.now)) }
    {
        value.encode(self)
    }

    /// Encodes the value of an optional field under a tag and constraints, which change nothing: it
    /// is encoded by its type's own.
    final fn encode_some_with_tag_and_constraints<T: Encode>(
        &mut self,
        tag: Tag,
        constraints: &Constraints,
        value: &T,
        identifier: Identifier,
    ) -> Result<(), EncodeError>
    where
        Self: Sized,
        ensures written { OnOk result (Written holds notation T.shape_of
            (T.value_of value.now) self.old self.new) }
        ensures refused { IfErr result (FailsToEncode notation (T.value_of value.now)) }
    {
        value.encode(self)
    }

    /// Leaves an optional field out under a tag, which changes nothing.
    ///
    /// # Errors
    ///
    /// `OutOfMemory` alone.
    final fn encode_none_with_tag(
        &mut self,
        tag: Tag,
        identifier: Identifier,
    ) -> Result<(), EncodeError>
    where
        Self: Sized,
        ensures written { OnOk result (Maps holds (push None) self.old self.new) }
        ensures refused { IfErr result (IsOutOfMemory notation) }
    {
        self.encode_absent()
    }

    /// Leaves an optional field out: puts an absent slot.
    ///
    /// # Errors
    ///
    /// `OutOfMemory` alone.
    final fn encode_none<T: Encode>(&mut self, identifier: Identifier) -> Result<(), EncodeError>
    where
        Self: Sized,
        ensures written { OnOk result (Maps holds (push None) self.old self.new) }
        ensures refused { IfErr result (IsOutOfMemory notation) }
    {
        self.encode_absent()
    }

    /// Encodes an extension addition under a tag and constraints, which change nothing: it is
    /// encoded by its type's own.
    final fn encode_extension_addition<T: Encode>(
        &mut self,
        tag: Tag,
        constraints: &Constraints,
        value: &T,
        identifier: Identifier,
    ) -> Result<(), EncodeError>
    where
        Self: Sized,
        ensures written { OnOk result (Written holds notation T.shape_of
            (T.value_of value.now) self.old self.new) }
        ensures refused { IfErr result (FailsToEncode notation (T.value_of value.now)) }
    {
        value.encode(self)
    }

    /// Encodes a group of extension additions (X.680, section 25.9), which is one field of a
    /// SEQUENCE type, or leaves it out.
    ///
    /// # Errors
    ///
    /// Those of `Encoder` where there is a group, and else `OutOfMemory` alone.
    final fn encode_extension_addition_group<T: Encode + Constructed>(
        &mut self,
        value: Option<&T>,
        identifier: Identifier,
    ) -> Result<(), EncodeError>
    where
        Self: Sized,
        ensures written { OnOk result (AddsSlot holds notation T.shape_of self.old self.new
            (option_map (λ v. T.value_of v.now) value.entry)) }
        ensures refused { IfErr result (FailsToFill notation
            (option_map (λ v. T.value_of v.now) value.entry ∷ [])) }
    {
        match value {
            Some(value) => self.encode_some::<T>(value, identifier),
            None => self.encode_none::<T>(identifier),
        }
    }

    /// Encodes a value under an explicit tag, which changes nothing in text.
    final fn encode_explicit_prefix<T: Encode>(
        &mut self,
        tag: Tag,
        value: &T,
        identifier: Identifier,
    ) -> Result<(), EncodeError>
    where
        Self: Sized,
        ensures written { OnOk result (Written holds notation T.shape_of
            (T.value_of value.now) self.old self.new) }
        ensures refused { IfErr result (FailsToEncode notation (T.value_of value.now)) }
    {
        value.encode(self)
    }

    /// Encodes a SEQUENCE OF, element by element.
    final fn encode_sequence_of<T: Encode>(
        &mut self,
        tag: Tag,
        value: &[T],
        constraints: &Constraints,
        identifier: Identifier,
    ) -> Result<(), EncodeError>
    where
        Self: Sized,
        ensures written { OnOk result (Written holds notation (Shape.list_of T.shape_of)
            (Value.list (values T.value_of value.now)) self.old self.new) }
        ensures refused { IfErr result (FailsToEncode notation
            (Value.list (values T.value_of value.now))) }
    {
        self.open_frame()?;
        // Each element adds one slot to the new frame.
        for item in value {
            item.encode(self)?;
        }
        self.close_list()
    }

    /// Encodes a SET OF, element by element. They are written in byte order of their texts.
    ///
    /// # Errors
    ///
    /// The kind of a part of any element that the notation cannot encode, since they have no order;
    /// else `OutOfMemory` alone.
    final fn encode_set_of<T: Encode + SetElement, M: Counts<T>>(
        &mut self,
        tag: Tag,
        value: &Multiset<T, M>,
        constraints: &Constraints,
        identifier: Identifier,
    ) -> Result<(), EncodeError>
    where
        Self: Sized,
        ensures written { OnOk result (Written holds notation (Shape.set_of T.shape_of)
            (bag_of (values T.value_of value.now)) self.old self.new) }
        ensures refused { IfErr result (FailsToEncode notation
            (bag_of (values T.value_of value.now))) }
    {
        let Ok(elements) = value.to_vec(self.allocator()) else {
            return Err(EncodeError::out_of_memory(self.codec()));
        };
        self.open_frame()?;
        for element in &elements {
            element.encode(self)?;
        }
        self.close_set()
    }

    /// Encodes a SEQUENCE: the closure starts on a new frame and leaves one slot per field in it,
    /// extension additions last. What it added is stated by its own clauses.
    ///
    /// # Errors
    ///
    /// Those of the closure, as they are; `OutOfMemory`.
    final fn encode_sequence<C: Constructed, F: FnOnce(&mut Self) -> Result<(), EncodeError>>(
        &mut self,
        tag: Tag,
        encoder_scope: F,
        identifier: Identifier,
    ) -> Result<(), EncodeError>
    where
        Self: Sized,
        requires { F.IsAlwaysCallable encoder_scope }
        ensures written { OnOk result (ScopeRan holds (FnOnceReturnsAtMut F.FnOnce encoder_scope)
            self.old (Ok tt) (λ left. Maps holds (close
            (as_members (field_names (all_fields C.fields C.added)))) left self.new)) }
        ensures refused { IfErr result (λ e. IsOutOfMemory notation e
            ⊎ ScopeRan holds (FnOnceReturnsAtMut F.FnOnce encoder_scope) self.old (Err e)
            (λ left. ⊤)) }
    {
        self.open_frame()?;
        encoder_scope(self)?;
        self.close_fields(
            C::field_table().items,
            listed_fields(C::extended_field_table()),
        )
    }

    /// Encodes a SET as `encode_sequence` does a SEQUENCE: the closure leaves the slots in the
    /// order in which the type lists its fields, and tags change nothing.
    ///
    /// # Errors
    ///
    /// Those of the closure, as they are; `OutOfMemory`.
    final fn encode_set<C: Constructed, F: FnOnce(&mut Self) -> Result<(), EncodeError>>(
        &mut self,
        tag: Tag,
        value: F,
        identifier: Identifier,
    ) -> Result<(), EncodeError>
    where
        Self: Sized,
        requires { F.IsAlwaysCallable value }
        ensures written { OnOk result (ScopeRan holds (FnOnceReturnsAtMut F.FnOnce value)
            self.old (Ok tt) (λ left. Maps holds (close
            (as_members (field_names (all_fields C.fields C.added)))) left self.new)) }
        ensures refused { IfErr result (λ e. IsOutOfMemory notation e
            ⊎ ScopeRan holds (FnOnceReturnsAtMut F.FnOnce value) self.old (Err e)
            (λ left. ⊤)) }
    {
        self.encode_sequence::<C, F>(tag, value, identifier)
    }

    /// Encodes a CHOICE: the closure starts on a new frame, leaves the payload's slot in it and
    /// returns the tag. What it added is stated by its own clauses.
    ///
    /// # Errors
    ///
    /// `VariantNotInChoice` exactly where the tag is that of no alternative, and then the closure
    /// is not called; those of the closure, as they are; `OutOfMemory`.
    final fn encode_choice<C: Choice, F: FnOnce(&mut Self) -> Result<Tag, EncodeError>>(
        &mut self,
        constraints: &Constraints,
        tag: Tag,
        encode_fn: F,
        identifier: Identifier,
    ) -> Result<(), EncodeError>
    where
        Self: Sized,
        requires callable { F.IsAlwaysCallable encode_fn }
        requires returns_tag { (p : _) (r : _) (q : _) → F.post encode_fn p r q
            → IfOk r (λ answer. answer ≡ tag) }
        ensures written { OnOk result
            (IfSome (alternative_tagged (all_alternatives C.alternatives C.added) tag)
            (λ a. ScopeRan holds (FnOnceReturnsAtMut F.FnOnce encode_fn) self.old
            (Ok tag) (λ left. Maps holds (close (as_choice a.0)) left self.new))) }
        ensures listed { IsOk result → IsSome
            (alternative_tagged (all_alternatives C.alternatives C.added) tag) }
        ensures unlisted { alternative_tagged (all_alternatives C.alternatives C.added) tag ≡ None
            → IsErr result × (self.new ≡ self.old) × IfErr result (λ e.
            (e.kind ≡ EncodeErrorKind.VariantNotInChoice) × (notation_of e.codec ≡ notation)) }
        ensures refused { IfErr result (λ e. IsOutOfMemory notation e
            ⊎ (((e.kind ≡ EncodeErrorKind.VariantNotInChoice)
            × (alternative_tagged (all_alternatives C.alternatives C.added) tag ≡ None))
            ⊎ ScopeRan holds (FnOnceReturnsAtMut F.FnOnce encode_fn) self.old (Err e)
            (λ left. ⊤))) }
    {
        // The identifier is looked up first, so that no frame is opened for a tag that has none.
        let added = listed(C::extended_variant_table());
        let Some(name) = identifier_of(C::variant_table(), added, C::identifier_table(), tag) else {
            return Err(EncodeError::variant_not_in_choice(self.codec()));
        };
        self.open_frame()?;
        // By its clause the closure returns `tag`.
        let _answer = encode_fn(self)?;
        self.close_choice(Name::Constant(name))
    }
}

/// Is a type whose values are encoded. The last call is each type's own, and the others hand it the
/// type's own tag or constraints.
///
/// Tag and identifier change nothing in text, and constraints decide only whether a BIT STRING has
/// a fixed size. The errors of each call are those that `Encoder` lists.
pub trait Encode: AsnType {
    /// Encodes the value as one slot more.
    fn encode<E: Encoder>(&self, encoder: &mut E) -> Result<(), EncodeError>
        ensures written { OnOk result (Written E.holds E.notation Self.shape_of
            (Self.value_of self.now) encoder.old encoder.new) }
        ensures refused { IfErr result (FailsToEncode E.notation (Self.value_of self.now)) }
    {
        self.encode_with_tag(encoder, Self::TAG)
    }

    /// Encodes the value under another tag.
    fn encode_with_tag<E: Encoder>(&self, encoder: &mut E, tag: Tag) -> Result<(), EncodeError>
        ensures written { OnOk result (Written E.holds E.notation Self.shape_of
            (Self.value_of self.now) encoder.old encoder.new) }
        ensures refused { IfErr result (FailsToEncode E.notation (Self.value_of self.now)) }
    {
        let constraints = Self::constraint_table();
        self.encode_with_tag_and_constraints(encoder, tag, &constraints, Self::IDENTIFIER)
    }

    /// Encodes the value under other constraints.
    fn encode_with_constraints<E: Encoder>(
        &self,
        encoder: &mut E,
        constraints: &Constraints,
    ) -> Result<(), EncodeError>
        ensures written { OnOk result (WrittenUnder E.holds E.notation
            (fixed_size constraints.now) Self.shape_of (Self.value_of self.now)
            encoder.old encoder.new) }
        ensures refused { IfErr result (FailsToEncodeUnder E.notation
            (fixed_size constraints.now) Self.shape_of (Self.value_of self.now)) }
    {
        self.encode_with_tag_and_constraints(encoder, Self::TAG, constraints, Self::IDENTIFIER)
    }

    /// Encodes the value under another tag, other constraints and a name. Each type writes this
    /// call.
    fn encode_with_tag_and_constraints<E: Encoder>(
        &self,
        encoder: &mut E,
        tag: Tag,
        constraints: &Constraints,
        identifier: Identifier,
    ) -> Result<(), EncodeError>
        ensures written { OnOk result (WrittenUnder E.holds E.notation
            (fixed_size constraints.now) Self.shape_of (Self.value_of self.now)
            encoder.old encoder.new) }
        ensures refused { IfErr result (FailsToEncodeUnder E.notation
            (fixed_size constraints.now) Self.shape_of (Self.value_of self.now)) };
}

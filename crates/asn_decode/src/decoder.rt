//! Defines `Decoder`, which a codec implements. A value of a type is made of the first slot that a
//! decoder has pending.
//!
//! A codec writes the calls without a body. The others are final, and are proved here once for
//! every codec.
ghost use Rattle.asn_fault.specs.Failure.{Cause, at_root, failure_of};
ghost use Rattle.asn_model.specs.Components.{Component};
ghost use Rattle.asn_model.specs.Fixed.{fixed_size};
ghost use Rattle.asn_model.specs.Leaf.{codec_of};
ghost use Rattle.asn_model.specs.Notation.{Notation, notation_of};
ghost use Rattle.asn_model.specs.Shape.{are_distinct, Shape, Alphabet};
ghost use Rattle.asn_model.specs.Shape.{SeqKind as AbstractSeqKind, all_fields, field_names};
ghost use Rattle.asn_model.specs.ShapeView.{kind_view};
ghost use Rattle.asn_model.specs.Tree.{Slot, head_nodes, slot_nodes};
ghost use Rattle.asn_model.specs.Value.{Value, bag_of, values};
ghost use Rattle.asn_model.specs.declared.leaves.LeafKind.TheVariants.{Boolean, Number};
ghost use Rattle.asn_model.specs.declared.leaves.OwnedLeaf.{OwnedLeaf};
ghost use Rattle.asn_coding.specs.Answer.{Answer, AnswerBy, AnswerUnder, AtRoot, Refuses};
ghost use Rattle.asn_coding.specs.Answer.{TakesAbsent, OptionalAnswer};
ghost use Rattle.asn_coding.specs.Opening.{TakesLeaf, OpensList, OpensMembers, OpensChoice};
ghost use Rattle.asn_coding.specs.Opening.{OpensFields};
ghost use Rattle.asn_coding.specs.Opening.{OpensAlternative, AllBelow, list_shape, list_value};
ghost use Rattle.asn_coding.specs.Scopes.{ScopeAnswer};
ghost use Rattle.asn_coding.specs.SetFields.{PlaceAnswer, SetAnswer, component_at};
ghost use Rattle.asn_coding.specs.SetFields.{listed_components, places_read};
ghost use Rattle.asn_coding.specs.Tables.{name_rows, names_of};
ghost use Rattle.asn_names.specs.Rows.{row_names};
ghost use Rattle.asn_types.specs.TextTypes.{no_teletex};
ghost use Rattle.std.specs.Prelude.{None, Some, true, ◌≡◌, ℕ, pos, List, ◌∷◌, ◌++◌, ◌<◌, map, length};
ghost use Rattle.std.specs.Prelude.{string_bytes, IfErr, IfSome, IsErr, Ok, drop};

use crate::numbers::number_of;
use crate::{Decode, DecodeChoice};
use asn_coding::{
    Field, Identifiers, NameList, Opened, TableNames, fields_as_read, listed, listed_fields,
    place_and_tag, tag_at,
};
use asn_core::{Any, Bits, Codec, Constraints, ObjectIdentifier, Tag, WholeNumber};
use asn_fault::{DecodeError, DecodeErrorKind, Refusal};
use asn_integers::IntegerType;
use asn_model::words::NO_TELETEX;
use asn_model::{LeafKind, OwnedLeaf, SeqKind, fixed_size};
use asn_multisets::{Counts, Multiset};
use asn_strings::{
    BmpString, GeneralString, GraphicString, Ia5String, NumericString, PrintableString,
    TeletexString, VisibleString,
};
use asn_times::{Date, GeneralizedTime, UtcTime};
use asn_types::{AsnType, Choice, Constructed, Enumerated, SetElement, SetField, TextType};
use std::alloc::Global;

/// Decodes one notation. Contracts see a decoder as a list of pending slots: a tree or absent.
///
/// Unless stated otherwise a call takes the first pending slot and decodes it.
///
/// # Errors
///
/// Unless stated otherwise the path and the kind by which the slot decodes to no value of the type,
/// and else `OutOfMemory` alone. What is pending after an error is unspecified.
pub trait Decoder {
    // The notation that is read.
    ghost notation: { Notation };

    // The slots that are still to be decoded, the first one first.
    ghost pending: { Self → List Slot };

    /// Returns the codec of its errors.
    fn codec(&self) -> Codec
        ensures { notation_of result ≡ notation };

    /// Returns the allocator that it takes memory from.
    fn allocator(&self) -> Global;

    /// Takes the first pending slot, a value of this kind, and returns the value. All calls for
    /// values without parts go through it.
    fn take_leaf(&mut self, kind: LeafKind) -> Result<OwnedLeaf, DecodeError>
        ensures { TakesLeaf notation kind (pending self.old) result (pending self.new) };

    /// Returns the number that the first pending slot is, where it is at hand, and leaves the slot.
    /// `None` says nothing of the slot.
    fn number_at_hand(&self) -> Option<WholeNumber>
        ensures { IfSome result (λ number. (rest : List Slot) × TakesLeaf notation Number
            (pending self.now) (Ok (OwnedLeaf.Number (Some number))) rest) };

    /// Returns the flag that the first pending slot is, where it is at hand, and leaves the slot.
    /// `None` says nothing of the slot.
    fn flag_at_hand(&self) -> Option<bool>
        ensures { IfSome result (λ flag. (rest : List Slot) × TakesLeaf notation Boolean
            (pending self.now) (Ok (OwnedLeaf.Boolean flag)) rest) };

    /// Drops the first pending slot, if there is one.
    fn pass(&mut self)
        ensures { pending self.new ≡ drop 1 (pending self.old) };

    /// Returns the error that a text names no item of a type.
    fn no_item(&self, text: String) -> DecodeError
        ensures { failure_of result ≡ at_root
            (Cause.invalid_enum_discriminant (codec_of notation) (string_bytes text))
            (codec_of notation) };

    /// Takes the first pending slot if it is absent, and returns whether it was. A present one
    /// stays.
    ///
    /// # Errors
    ///
    /// The end of input where no slot is pending; `OutOfMemory`.
    fn take_absent(&mut self) -> Result<bool, DecodeError>
        ensures { TakesAbsent notation (pending self.old) result (pending self.new) };

    /// Puts the elements of the first pending slot, a SEQUENCE OF or SET OF, in its place, and
    /// returns their number.
    ///
    /// # Errors
    ///
    /// A type mismatch, which in AVN names the kind, where the slot has no elements; those of
    /// `Decoder`.
    fn open_list(&mut self, kind: SeqKind) -> Result<usize, DecodeError>
        ensures { OpensList notation (kind_view kind) (pending self.old) result
            (pending self.new) };

    /// Puts the slots of the fields of these names of the first pending slot in its place. A field
    /// is found by its name, whatever the order in the text, and members of other names are
    /// dropped. In AVN, where the names of fields stand at two present entries each, it returns the
    /// place of the first such name by the entries' `index`.
    ///
    /// # Errors
    ///
    /// A type mismatch, which in AVN names the kind, where the slot has no members; those of
    /// `Decoder`.
    fn open_members<N: NameList>(&mut self, kind: SeqKind, names: &N) -> Result<Opened, DecodeError>
        requires { are_distinct (row_names (N.rows names.now)) ≡ true }
        ensures { OpensMembers notation (kind_view kind) (N.rows names.now) (pending self.old)
            result (pending self.new) };

    /// Puts the payload of the first pending slot, a choice, in its place, and returns the place of
    /// its identifier. Where the identifier is none of these, or there is none, it puts an absent
    /// slot and returns `None`.
    ///
    /// # Errors
    ///
    /// A type mismatch where the slot is no choice, as a JSON object of two members or more; those
    /// of `Decoder`.
    fn open_choice<N: NameList>(&mut self, identifiers: &N) -> Result<Option<usize>, DecodeError>
        ensures { OpensChoice notation (row_names (N.rows identifiers.now)) (pending self.old)
            result (pending self.new) };

    /// Puts the slots of these fields of the first pending slot in its place: those of the root
    /// fields, and then those of the extension additions. A field is found by its name, whatever
    /// the order in the text, and members of other names are dropped.
    ///
    /// # Errors
    ///
    /// A type mismatch, which in AVN names the kind, where the slot has no members; in AVN
    /// `DuplicateField` where the name of a field stands at two present entries, with the first
    /// such name by the rows' `index`; those of `Decoder`.
    final fn open_fields(
        &mut self,
        kind: SeqKind,
        root: &[Field],
        additions: &[Field],
    ) -> Result<(), DecodeError>
        requires { are_distinct (names_of root.now ++ names_of additions.now) ≡ true }
        ensures { OpensFields notation (kind_view kind) (name_rows (root.now ++ additions.now))
            (pending self.old) result (pending self.new) }
    {
        let tables = TableNames { root, additions };
        match self.open_members(kind, &tables) {
            Ok(Opened::Members) => Ok(()),
            Ok(Opened::Repeated(place)) => {
                Err(DecodeError::duplicate_field(tables.field(place).name, self.codec()))
            }
            Err(error) => Err(error),
        }
    }

    /// Decodes a BOOLEAN.
    #[inline(never)]
    final fn decode_bool(&mut self, tag: Tag) -> Result<bool, DecodeError>
        ensures { Answer notation Shape.boolean Value.boolean (pending self.old) result
            (pending self.new) }
    {
        // By a `match` and not by `?`, so that the answer isn't copied once more.
        let leaf = match self.take_leaf(LeafKind::Boolean) {
            Ok(leaf) => leaf,
            Err(error) => return Err(error),
        };
        match leaf {
            // By the contract of `take_leaf` a leaf is of the kind that was asked for.
            OwnedLeaf::Boolean(flag) => Ok(flag),
            _ => unreachable!(),
        }
    }

    /// Decodes a NULL.
    final fn decode_null(&mut self, tag: Tag) -> Result<(), DecodeError>
        ensures { Answer notation Shape.null (λ u. Value.null) (pending self.old) result
            (pending self.new) }
    {
        match self.take_leaf(LeafKind::Null)? {
            OwnedLeaf::Null => Ok(()),
            _ => unreachable!(),
        }
    }

    /// Decodes an INTEGER of the type's range.
    ///
    /// # Errors
    ///
    /// `IntegerOverflow` with the bits of the type where the number is outside its range; those of
    /// `Decoder`.
    #[inline(never)]
    final fn decode_integer<I: IntegerType>(
        &mut self,
        tag: Tag,
        constraints: &Constraints,
    ) -> Result<I, DecodeError>
        ensures { Answer notation (Shape.int I.LEAST (pos I.GREATEST) I.WIDTH)
            (λ n. Value.int (I.number n)) (pending self.old) result (pending self.new) }
    {
        let leaf = match self.take_leaf(LeafKind::Number) {
            Ok(leaf) => leaf,
            Err(error) => return Err(error),
        };
        match leaf {
            OwnedLeaf::Number(number) => match number_of::<I>(number) {
                Some(value) => Ok(value),
                None => Err(DecodeError::integer_overflow(I::WIDTH, self.codec())),
            },
            _ => unreachable!(),
        }
    }

    /// Decodes a UTF8String.
    final fn decode_utf8_string(
        &mut self,
        tag: Tag,
        constraints: &Constraints,
    ) -> Result<String, DecodeError>
        ensures { Answer notation (Shape.text Alphabet.utf8) (λ s. Value.text (string_bytes s))
            (pending self.old) result (pending self.new) }
    {
        match self.take_leaf(LeafKind::Text)? {
            OwnedLeaf::Text(text) => Ok(text),
            _ => unreachable!(),
        }
    }

    /// Decodes an item of an ENUMERATED type, from its identifier.
    ///
    /// # Errors
    ///
    /// That of `no_item` where the text is no identifier of the type; those of `Decoder`.
    final fn decode_enumerated<E: Enumerated>(&mut self, tag: Tag) -> Result<E, DecodeError>
        ensures { Answer notation (Shape.enum E.items E.added) (λ x. Value.item (E.item x))
            (pending self.old) result (pending self.new) }
    {
        match self.take_leaf(LeafKind::Item)? {
            OwnedLeaf::Item(text) => match E::from_identifier(text.as_str()) {
                Some(item) => Ok(item),
                None => Err(self.no_item(text)),
            },
            _ => unreachable!(),
        }
    }

    /// Decodes an OCTET STRING.
    final fn decode_octet_string(
        &mut self,
        tag: Tag,
        constraints: &Constraints,
    ) -> Result<Vec<u8>, DecodeError>
        ensures { Answer notation Shape.octets (λ v. Value.octets v.items) (pending self.old) result
            (pending self.new) }
    {
        match self.take_leaf(LeafKind::Octets)? {
            OwnedLeaf::Octets(octets) => Ok(octets),
            _ => unreachable!(),
        }
    }

    /// Reads a value of any type, as the octets of its encoding.
    final fn decode_any(&mut self, tag: Tag) -> Result<Any, DecodeError>
        ensures { Answer notation Shape.any Value.octets (pending self.old) result
            (pending self.new) }
    {
        match self.take_leaf(LeafKind::Any)? {
            OwnedLeaf::Any(octets) => Ok(Any::new(octets)),
            _ => unreachable!(),
        }
    }

    /// Reads an OBJECT IDENTIFIER.
    final fn decode_object_identifier(&mut self, tag: Tag) -> Result<ObjectIdentifier, DecodeError>
        ensures { Answer notation Shape.oid Value.arcs (pending self.old) result
            (pending self.new) }
    {
        match self.take_leaf(LeafKind::Oid)? {
            OwnedLeaf::Oid(identifier) => Ok(identifier),
            _ => unreachable!(),
        }
    }

    /// Reads a BIT STRING, of a fixed size where the constraints fix one.
    final fn decode_bit_string(
        &mut self,
        tag: Tag,
        constraints: &Constraints,
    ) -> Result<Bits, DecodeError>
        ensures { AnswerUnder notation (fixed_size constraints.now) (Shape.bits None)
            (λ bits. Value.bits bits None) (pending self.old) result (pending self.new) }
    {
        match self.take_leaf(LeafKind::Bits(fixed_size(constraints)))? {
            OwnedLeaf::Bits(bits, _) => Ok(bits),
            _ => unreachable!(),
        }
    }

    /// Reads a value that is a text: a character string or a time.
    final fn decode_text<T: TextType>(
        &mut self,
        tag: Tag,
        constraints: &Constraints,
    ) -> Result<T, DecodeError>
        ensures { Answer notation T.shape T.value (pending self.old) result (pending self.new) }
    {
        match self.take_leaf(T::text_kind())? {
            OwnedLeaf::Text(text) => T::of_text(self.allocator(), text, self.codec()),
            _ => unreachable!(),
        }
    }

    /// Reads a NumericString.
    final fn decode_numeric_string(
        &mut self,
        tag: Tag,
        constraints: &Constraints,
    ) -> Result<NumericString, DecodeError>
        ensures { Answer notation (Shape.text Alphabet.numeric) Value.text (pending self.old) result
            (pending self.new) }
    {
        self.decode_text::<NumericString>(tag, constraints)
    }

    /// Reads a PrintableString.
    final fn decode_printable_string(
        &mut self,
        tag: Tag,
        constraints: &Constraints,
    ) -> Result<PrintableString, DecodeError>
        ensures { Answer notation (Shape.text Alphabet.printable) Value.text (pending self.old)
            result
            (pending self.new) }
    {
        self.decode_text::<PrintableString>(tag, constraints)
    }

    /// Reads a VisibleString.
    final fn decode_visible_string(
        &mut self,
        tag: Tag,
        constraints: &Constraints,
    ) -> Result<VisibleString, DecodeError>
        ensures { Answer notation (Shape.text Alphabet.visible) Value.text (pending self.old) result
            (pending self.new) }
    {
        self.decode_text::<VisibleString>(tag, constraints)
    }

    /// Reads an IA5String.
    final fn decode_ia5_string(
        &mut self,
        tag: Tag,
        constraints: &Constraints,
    ) -> Result<Ia5String, DecodeError>
        ensures { Answer notation (Shape.text Alphabet.ia5) Value.text (pending self.old) result
            (pending self.new) }
    {
        self.decode_text::<Ia5String>(tag, constraints)
    }

    /// Reads a GeneralString.
    final fn decode_general_string(
        &mut self,
        tag: Tag,
        constraints: &Constraints,
    ) -> Result<GeneralString, DecodeError>
        ensures { Answer notation (Shape.text Alphabet.general) Value.text (pending self.old) result
            (pending self.new) }
    {
        self.decode_text::<GeneralString>(tag, constraints)
    }

    /// Reads a GraphicString.
    final fn decode_graphic_string(
        &mut self,
        tag: Tag,
        constraints: &Constraints,
    ) -> Result<GraphicString, DecodeError>
        ensures { Answer notation (Shape.text Alphabet.graphic) Value.text (pending self.old) result
            (pending self.new) }
    {
        self.decode_text::<GraphicString>(tag, constraints)
    }

    /// Reads a BMPString.
    final fn decode_bmp_string(
        &mut self,
        tag: Tag,
        constraints: &Constraints,
    ) -> Result<BmpString, DecodeError>
        ensures { Answer notation Shape.bmp Value.units (pending self.old) result
            (pending self.new) }
    {
        self.decode_text::<BmpString>(tag, constraints)
    }

    /// Reads a UTCTime.
    final fn decode_utc_time(&mut self, tag: Tag) -> Result<UtcTime, DecodeError>
        ensures { Answer notation Shape.utc Value.utc (pending self.old) result
            (pending self.new) }
    {
        self.decode_text::<UtcTime>(tag, &Constraints::NONE)
    }

    /// Reads a GeneralizedTime.
    final fn decode_generalized_time(&mut self, tag: Tag) -> Result<GeneralizedTime, DecodeError>
        ensures { Answer notation Shape.gen Value.gen (pending self.old) result
            (pending self.new) }
    {
        self.decode_text::<GeneralizedTime>(tag, &Constraints::NONE)
    }

    /// Reads a DATE.
    final fn decode_date(&mut self, tag: Tag) -> Result<Date, DecodeError>
        ensures { Answer notation Shape.day Value.day (pending self.old) result
            (pending self.new) }
    {
        self.decode_text::<Date>(tag, &Constraints::NONE)
    }

    /// Refuses a TeletexString, always, and where nothing is pending too: with `Custom`, or
    /// `OutOfMemory`.
    final fn decode_teletex_string(
        &mut self,
        tag: Tag,
        constraints: &Constraints,
    ) -> Result<TeletexString, DecodeError>
        ensures never { IsErr result }
        ensures refused { IfErr result (λ e. Refuses notation
            (AtRoot (λ cause. cause ≡ Cause.custom no_teletex)) (failure_of e)) }
    {
        match String::from_str(self.allocator(), NO_TELETEX) {
            Ok(msg) => Err(DecodeError::custom(msg, self.codec())),
            Err(_) => Err(DecodeError::out_of_memory(self.codec())),
        }
    }

    /// Refuses a REAL with `RealNotSupported`, always, and where nothing is pending too.
    final fn decode_real(&mut self, tag: Tag, constraints: &Constraints) -> Result<(), DecodeError>
        ensures never { IsErr result }
        ensures refused { IfErr result (λ e. failure_of e
            ≡ at_root Cause.real_not_supported e.codec) }
        ensures codec { IfErr result (λ e. notation_of e.codec ≡ notation) }
    {
        let kind = DecodeErrorKind::RealNotSupported;
        Err(DecodeError::from_kind(kind, self.codec()))
    }

    /// Decodes the elements of a SEQUENCE OF or SET OF, in the order in which they stand. All room
    /// is made for them at once, since their number is known.
    final fn decode_elements<T: Decode>(&mut self, kind: SeqKind) -> Result<Vec<T>, DecodeError>
        ensures { Answer notation (list_shape (kind_view kind) T.shape_of)
            (λ v. list_value (kind_view kind) (values T.value_of v.items)) (pending self.old) result
            (pending self.new) }
    {
        let count = self.open_list(kind)?;
        let Ok(mut items) = Vec::with_capacity(self.allocator(), count) else {
            return Err(DecodeError::out_of_memory(self.codec()));
        };
        for i in 0..count {
            // The elements are the first slots, in order, and each call takes one. What is at hand
            // is taken by a call that makes no room for an error.
            match T::decode_at_hand(self) {
                Some(item) => items.push_reserved(item),
                None => items.push_reserved(T::decode(self)?),
            }
        }
        Ok(items)
    }

    /// Decodes a SEQUENCE OF.
    final fn decode_sequence_of<T: Decode>(
        &mut self,
        tag: Tag,
        constraints: &Constraints,
    ) -> Result<Vec<T>, DecodeError>
        ensures { Answer notation (Shape.list_of T.shape_of)
            (λ v. Value.list (values T.value_of v.items)) (pending self.old) result
            (pending self.new) }
    {
        self.decode_elements::<T>(SeqKind::Sequence)
    }

    /// Decodes a SET OF, whose elements may stand in any order.
    final fn decode_set_of<T: Decode + SetElement, M: Counts<T>>(
        &mut self,
        tag: Tag,
        constraints: &Constraints,
    ) -> Result<Multiset<T, M>, DecodeError>
        ensures { Answer notation (Shape.set_of T.shape_of)
            (λ set. bag_of (values T.value_of set)) (pending self.old) result
            (pending self.new) }
    {
        let elements = self.decode_elements::<T>(SeqKind::Set)?;
        match Multiset::from_vec(self.allocator(), elements) {
            Ok(set) => Ok(set),
            Err(_) => Err(DecodeError::out_of_memory(self.codec())),
        }
    }

    /// Decodes a SEQUENCE: `decode_fn` starts with one slot per field before the others, extension
    /// additions last, and takes them all. Its error is a `DecodeError`.
    final fn decode_sequence<C: Constructed, E: Refusal, F: FnOnce(&mut Self) -> Result<C, E>>(
        &mut self,
        tag: Tag,
        decode_fn: F,
    ) -> Result<C, E>
        requires sequence { C.kind ≡ AbstractSeqKind.sequence }
        // The closure may be called with these slots, each of fewer nodes than the opened one, and
        // what it returns of them is a value or an error by the same definition (`reads`).
        requires callable { (p : _) (slot : Slot) (slots rest : List Slot)
            → pending self.old ≡ slot ∷ rest → pending p.now ≡ slots ++ rest
            → length slots ≡ length (field_names (all_fields C.fields C.added))
            → AllBelow (slot_nodes slot) slots → F.pre decode_fn p }
        requires reads { (p : _) (r : _) (q : _) (slots rest : List Slot)
            → pending p.now ≡ slots ++ rest
            → length slots ≡ length (field_names (all_fields C.fields C.added))
            → F.post decode_fn p r q
            → ScopeAnswer E.failure notation C.fields C.added C.value_of slots rest r
            (pending q.now) }
        ensures { AnswerBy E.failure notation (Shape.seq C.kind C.fields C.added) C.value_of
            (pending self.old) result (pending self.new) }
    {
        // The fields are found by the names in the type's tables.
        let additions = listed_fields(C::extended_field_table());
        match self.open_fields(SeqKind::Sequence, C::field_table().items, additions) {
            Ok(()) => decode_fn(self),
            Err(error) => Err(E::of(error)),
        }
    }

    /// Decodes a SET field by field: those of the root in the order of their tags, and then the
    /// extension additions. `decode_fn` takes the first pending slot as the field at a place among
    /// all fields, and is handed that field's tag too, of an untagged CHOICE its smallest one;
    /// `field_fn` makes the value of what it returned, in that order. Their error is a
    /// `DecodeError`.
    ///
    /// # Errors
    ///
    /// Those of `Decoder`, by the first field in that order that can't be decoded.
    final fn decode_set<
        S: SetField,
        C: Constructed,
        E: Refusal,
        R: Fn(&mut Self, usize, Tag) -> Result<S, E>,
        F: FnOnce(Vec<S>) -> Result<C, E>,
    >(&mut self, tag: Tag, decode_fn: R, field_fn: F) -> Result<C, E>
        requires set { C.kind ≡ AbstractSeqKind.set }
        // `decode_fn` may be called for each place with the tag of the component there, and what it
        // returns is that field's.
        requires callable { (p : _) (k : ℕ) (c : Component)
            → component_at (listed_components C.fields C.added) k ≡ Some c
            → R.pre decode_fn p k c.tag }
        requires reads { (p : _) (k : ℕ) (r : _) (q : _) (c : Component)
            → component_at (listed_components C.fields C.added) k ≡ Some c
            → R.post decode_fn p k c.tag r q
            → PlaceAnswer E.failure S.number S.slot notation k c (pending p.now) r
            (pending q.now) }
        // `field_fn` may be called with these answers, and makes the value of their slots.
        requires buildable { (answers : _)
            → map S.number answers.items ≡ map (λ p. p.0) (places_read C.fields C.added)
            → F.pre field_fn answers }
        requires builds { (answers : _) (r : _)
            → map S.number answers.items ≡ map (λ p. p.0) (places_read C.fields C.added)
            → F.post field_fn answers r
            → SetAnswer E.failure notation S.slot C.fields C.added C.value_of answers.items r }
        ensures { AnswerBy E.failure notation (Shape.seq C.kind C.fields C.added) C.value_of
            (pending self.old) result (pending self.new) }
    {
        let additions = listed_fields(C::extended_field_table());
        let Ok(fields) = fields_as_read(self.allocator(), C::field_table().items, additions) else {
            return Err(E::of(DecodeError::out_of_memory(self.codec())));
        };
        match self.open_fields(SeqKind::Set, fields.as_slice(), &[]) {
            Ok(()) => {}
            Err(error) => return Err(E::of(error)),
        }
        let mut answers = Vec::new(self.allocator());
        for field in &fields {
            let (place, tag) = place_and_tag(field);
            match decode_fn(self, place, tag) {
                Ok(answer) => {
                    let Ok(()) = answers.push(answer) else {
                        return Err(E::of(DecodeError::out_of_memory(self.codec())));
                    };
                }
                Err(error) => return Err(error),
            }
        }
        field_fn(answers)
    }

    /// Puts the payload of the first pending slot, a CHOICE, in its place, and returns the tag of
    /// its alternative.
    ///
    /// Where it names no alternative, it puts an absent slot there and returns `EOC`.
    final fn open_alternative<C: Choice>(
        &mut self,
        constraints: &Constraints,
    ) -> Result<Tag, DecodeError>
        ensures { OpensAlternative notation C.alternatives C.added (pending self.old) result
            (pending self.new) }
    {
        match self.open_choice(&Identifiers(C::identifier_table())) {
            Ok(Some(place)) => {
                let added = listed(C::extended_variant_table());
                Ok(tag_at(C::variant_table(), added, place))
            }
            Ok(None) => Ok(Tag::EOC),
            Err(error) => Err(error),
        }
    }

    /// Decodes a CHOICE. Where no alternative is named, the type's `from_tag` returns the error.
    final fn decode_choice<C: DecodeChoice>(
        &mut self,
        constraints: &Constraints,
    ) -> Result<C, DecodeError>
        ensures { Answer notation (Shape.choice C.alternatives C.added) C.value_of
            (pending self.old) result (pending self.new) }
    {
        match self.open_alternative::<C>(constraints) {
            Ok(tag) => C::from_tag(self, tag),
            Err(error) => Err(error),
        }
    }

    /// Decodes an optional field: `None` where the slot is absent.
    final fn decode_optional<T: Decode>(&mut self) -> Result<Option<T>, DecodeError>
        ensures { OptionalAnswer notation T.shape_of T.value_of (pending self.old) result
            (pending self.new) }
    {
        match self.take_absent() {
            Ok(true) => Ok(None),
            Ok(false) => match T::decode(self) {
                Ok(value) => Ok(Some(value)),
                Err(error) => Err(error),
            },
            Err(error) => Err(error),
        }
    }

    /// Decodes an optional field under an explicit tag, which changes nothing: `None` where the
    /// slot is absent.
    final fn decode_optional_with_explicit_prefix<T: Decode>(
        &mut self,
        tag: Tag,
    ) -> Result<Option<T>, DecodeError>
        ensures { OptionalAnswer notation T.shape_of T.value_of (pending self.old) result
            (pending self.new) }
    {
        self.decode_optional()
    }

    /// Decodes an optional field under a tag, which changes nothing: `None` where the slot is
    /// absent.
    final fn decode_optional_with_tag<T: Decode>(
        &mut self,
        tag: Tag,
    ) -> Result<Option<T>, DecodeError>
        ensures { OptionalAnswer notation T.shape_of T.value_of (pending self.old) result
            (pending self.new) }
    {
        self.decode_optional()
    }

    /// Decodes an optional field under constraints, which change nothing: `None` where the slot is
    /// absent.
    final fn decode_optional_with_constraints<T: Decode>(
        &mut self,
        constraints: &Constraints,
    ) -> Result<Option<T>, DecodeError>
        ensures { OptionalAnswer notation T.shape_of T.value_of (pending self.old) result
            (pending self.new) }
    {
        self.decode_optional()
    }

    /// Decodes an optional field under a tag and constraints, which change nothing: `None` where
    /// the slot is absent.
    final fn decode_optional_with_tag_and_constraints<T: Decode>(
        &mut self,
        tag: Tag,
        constraints: &Constraints,
    ) -> Result<Option<T>, DecodeError>
        ensures { OptionalAnswer notation T.shape_of T.value_of (pending self.old) result
            (pending self.new) }
    {
        self.decode_optional()
    }

    /// Decodes an extension addition under an explicit tag and constraints, which change nothing:
    /// `None` where the slot is absent.
    final fn decode_extension_addition_with_explicit_tag_and_constraints<T: Decode>(
        &mut self,
        tag: Tag,
        constraints: &Constraints,
    ) -> Result<Option<T>, DecodeError>
        ensures { OptionalAnswer notation T.shape_of T.value_of (pending self.old) result
            (pending self.new) }
    {
        self.decode_optional()
    }

    /// Decodes an extension addition under a tag and constraints, which change nothing: `None`
    /// where the slot is absent.
    final fn decode_extension_addition_with_tag_and_constraints<T: Decode>(
        &mut self,
        tag: Tag,
        constraints: &Constraints,
    ) -> Result<Option<T>, DecodeError>
        ensures { OptionalAnswer notation T.shape_of T.value_of (pending self.old) result
            (pending self.new) }
    {
        self.decode_optional()
    }

    /// Decodes a group of extension additions (X.680, section 25.9), which is one field of a
    /// SEQUENCE type: `None` where the slot is absent.
    final fn decode_extension_addition_group<T: Decode + Constructed>(
        &mut self,
    ) -> Result<Option<T>, DecodeError>
        ensures { OptionalAnswer notation T.shape_of T.value_of (pending self.old) result
            (pending self.new) }
    {
        self.decode_optional()
    }

    /// Decodes a value under an explicit tag, which changes nothing in text.
    final fn decode_explicit_prefix<T: Decode>(&mut self, tag: Tag) -> Result<T, DecodeError>
        ensures { Answer notation T.shape_of T.value_of (pending self.old) result
            (pending self.new) }
    {
        T::decode(self)
    }
}

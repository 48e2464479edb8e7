//! Tests whether a shape can be read. By such a shape, what is written for a value decodes to that
//! value (`laws::written_decodes`), so every `AsnType` has one by a law of the trait.
ghost use Rattle.asn_model.specs.Enclosing.{loops_of, unguarded_of, entries_of};
ghost use Rattle.asn_model.specs.CharacterStrings.{is_string_of};
ghost use Rattle.asn_model.specs.Readable.{is_readable, is_readable_in, are_fields_readable};
ghost use Rattle.asn_model.specs.Readable.{are_alternatives_readable, has_128_bits, is_of_shape};
ghost use Rattle.asn_model.specs.Readable.{suits, has_alternative, are_distinguishable};
ghost use Rattle.asn_model.specs.Readable.{are_key_and_value, is_entry, is_required};
ghost use Rattle.asn_model.specs.Readable.{has_no_additions, is_sequence, is_utf8_string};
ghost use Rattle.asn_model.specs.Shape.{join_alternatives};
ghost use Rattle.asn_model.specs.ShapeView.{alphabet_view, shape_view, plain_view, presence_view};
ghost use Rattle.asn_model.specs.ShapeView.{added_field_views, alternative_views};
ghost use Rattle.asn_model.specs.ShapeView.{field_views, kind_view};
ghost use Rattle.avn_grammar.specs.Chars.{all};
ghost use Rattle.avn_grammar.specs.WellFormed.{is_octet};
ghost use Rattle.std.specs.Prelude.{◌≡◌, ◌&&◌, nat_le, nat_lt, pos, string_bytes};
ghost use Rattle.std.specs.Str.{bytes_eq, is_utf8};

use crate::distinct::{have_distinct_identifiers, have_distinct_names, have_distinct_tags};
use crate::leaves::are_octets;
use crate::names::{are_identifiers, are_no_keywords, has_name};
use crate::tags::has_tag;
use crate::{Alphabet, AlternativeShape, FieldShape, Plain, PresenceShape, SeqKind, Shape};
use asn_core::Tag;
use asn_strings::character_sets::{
    Graphic, Ia5, Numeric, Printable, Visible, are_within, is_within,
};
use std::alloc::Global;

/// Holds what stands around a part of a shape, the innermost first, as a chain of references on
/// the stack: no count of loops can overflow, and none takes memory.
#[derive(Drop)]
pub enum Enclosing<'a> {
    /// So many loops are around, and nothing else. The whole shape has none around it.
    Loops(usize),
    /// The part is the body of a type that its own parts name.
    Loop(&'a Enclosing<'a>),
    /// The part stands in a list, sequence, set, table or choice.
    Part(&'a Enclosing<'a>),
}

/// Returns whether a shape can be read, by what its names, tags and loops are. It takes no memory.
///
/// Names are identifiers of AVN and distinct in a SEQUENCE, SET or ENUMERATED. No item is a keyword
/// of AVN. A CHOICE has an alternative; its identifiers differ in more than case, and its tags are
/// distinct and none is that of the end of contents. A default is a value of its field's shape.
/// The entry of a table is a SEQUENCE of `key`, a UTF8String, and `value`, both required.
/// Each `Back` means a `Loop` around it, with a list, sequence, set, table or choice between, so
/// that each level of a value takes up a part of its text.
pub fn is_readable(shape: &Shape) -> bool
    ensures { result ≡ is_readable (shape_view shape.now) }
{
    is_readable_within(shape, 0)
}

/// Returns whether a shape can be read, by the conditions of `is_readable`. Names, identifiers and
/// tags are compared by sets of them, in time that grows with the shape. Where memory runs out they
/// are compared one by one as `is_readable` does, with the same answer, so that nothing is refused
/// for want of memory.
pub fn is_readable_with(alloc: Global, shape: &Shape) -> bool
    ensures { result ≡ is_readable (shape_view shape.now) }
{
    is_readable_in(Some(alloc), shape, &Enclosing::Loops(0))
}

/// Returns whether a shape can be read that is the innermost body of so many loops, each of which
/// holds the next one directly, by the conditions of `is_readable`: so a `Back` may mean one of
/// them where it stands in a list, sequence, set, table or choice. It takes no memory.
pub fn is_readable_within(shape: &Shape, loops: usize) -> bool
    ensures { result ≡ is_readable_in loops loops (shape_view shape.now) }
{
    is_readable_in(None, shape, &Enclosing::Loops(loops))
}

/// Returns whether a shape can be read that is the innermost body of so many loops, as
/// `is_readable_within` does. Names, identifiers and tags are compared by sets of them, as
/// `is_readable_with` compares them.
pub fn is_readable_within_with(alloc: Global, shape: &Shape, loops: usize) -> bool
    ensures { result ≡ is_readable_in loops loops (shape_view shape.now) }
{
    is_readable_in(Some(alloc), shape, &Enclosing::Loops(loops))
}

/// Returns whether a part of a shape can be read within what stands around it. Where memory is
/// given, names and tags are compared by sets of them.
#[cycle(readable)]
#[tactic(auto, using(crate::proofs::ShapeNames::sequence_readable, crate::proofs::ShapeNames::choice_readable))]
fn is_readable_in(memory: Option<Global>, shape: &Shape, around: &Enclosing<'_>) -> bool
    ensures { result ≡ is_readable_in (loops_of around.now) (unguarded_of around.now)
        (shape_view shape.now) }
{
    // What a kind has to meet stands at its arm; most shapes without parts meet it as they are.
    match shape {
        Shape::Int {
            least,
            greatest,
            ..
        } => has_128_bits(*least, *greatest),
        Shape::Enum { items, added } => {
            let added = entries(added);
            are_no_keywords(items, added) && have_distinct_names(memory, items, added)
        }
        Shape::Seq {
            kind: _,
            fields,
            added,
        } => {
            let added = entries(added);
            // Names first, which are cheap beside the shapes of the fields.
            are_identifiers(fields, added)
                && have_distinct_names(memory, fields, added)
                && are_fields_readable(memory, fields, &*around)
                && are_fields_readable(memory, added, &*around)
        }
        Shape::ListOf(element) => is_readable_in(memory, element, &Enclosing::Part(&*around)),
        Shape::SetOf(element) => is_readable_in(memory, element, &Enclosing::Part(&*around)),
        Shape::Table(entry) => {
            is_entry(entry) && is_readable_in(memory, entry, &Enclosing::Part(&*around))
        }
        Shape::Choice {
            alternatives,
            added,
        } => {
            let added = entries(added);
            has_alternative(alternatives, added)
                && are_distinguishable(memory, alternatives, added)
                && are_alternatives_readable(memory, alternatives, &*around)
                && are_alternatives_readable(memory, added, &*around)
        }
        Shape::Loop(body) => is_readable_in(memory, body, &Enclosing::Loop(&*around)),
        Shape::Back(number) => means_loop(around, *number),
        Shape::Null => true,
        Shape::Bool => true,
        Shape::Bits { .. } => true,
        Shape::Octets => true,
        Shape::Any => true,
        Shape::Oid => true,
        Shape::Str { .. } => true,
        Shape::Bmp => true,
        Shape::Utc => true,
        Shape::Gen => true,
        Shape::Day => true,
        Shape::Decimal => true,
    }
}

/// Returns whether the shapes of the fields can be read, and their defaults are values of them.
#[cycle(readable)]
fn are_fields_readable(
    memory: Option<Global>,
    fields: &[FieldShape],
    around: &Enclosing<'_>,
) -> bool
    ensures { result ≡ are_fields_readable (loops_of around.now) (field_views fields.now) }
{
    for field in fields {
        if !suits(&field.presence, &field.shape) {
            return false;
        }
        if !is_readable_in(memory, &field.shape, &Enclosing::Part(&*around)) {
            return false;
        }
    }
    true
}

/// Returns whether the shapes of the alternatives can be read.
#[cycle(readable)]
fn are_alternatives_readable(
    memory: Option<Global>,
    alternatives: &[AlternativeShape],
    around: &Enclosing<'_>,
) -> bool
    ensures { result ≡ are_alternatives_readable (loops_of around.now)
        (alternative_views alternatives.now) }
{
    for alternative in alternatives {
        if !is_readable_in(memory, &alternative.shape, &Enclosing::Part(&*around)) {
            return false;
        }
    }
    true
}

/// Returns whether the shape is that of a table's entry: a SEQUENCE of a key and a value, without
/// additions.
#[tactic(auto, using(crate::proofs::ShapeNames::entry_viewed))]
fn is_entry(shape: &Shape) -> bool
    ensures { result ≡ is_entry (shape_view shape.now) }
{
    match shape {
        Shape::Seq {
            kind,
            fields,
            added,
        } => is_sequence(*kind) && (are_key_and_value(fields) && has_no_additions(added)),
        _ => false,
    }
}

/// Returns whether the kind is that of a SEQUENCE and not of a SET.
fn is_sequence(kind: SeqKind) -> bool
    ensures { result ≡ is_sequence (kind_view kind) }
{
    match kind {
        SeqKind::Sequence => true,
        SeqKind::Set => false,
    }
}

/// Returns whether no field was added.
#[tactic(auto, using(crate::proofs::ShapeNames::additions_viewed))]
fn has_no_additions(added: &Option<Vec<FieldShape>>) -> bool
    ensures { result ≡ has_no_additions (added_field_views added.now) }
{
    entries(added).is_empty()
}

/// Returns whether the fields are `key`, which is a UTF8String, and `value`, both required.
fn are_key_and_value(fields: &[FieldShape]) -> bool
    ensures { result ≡ are_key_and_value (field_views fields.now) }
{
    match fields {
        [key, value] => {
            is_required(key, "key") && (is_utf8_string(&key.shape) && is_required(value, "value"))
        }
        _ => false,
    }
}

/// Returns whether the field has this name and has to be present.
fn is_required(field: &FieldShape, name: &str) -> bool
    ensures { result ≡ (bytes_eq (string_bytes field.now.name) name.now
        && is_required (presence_view field.now.presence)) }
{
    field.name.as_str() == name && matches!(field.presence, PresenceShape::Required)
}

/// Returns whether the shape is that of UTF8String.
fn is_utf8_string(shape: &Shape) -> bool
    ensures { result ≡ is_utf8_string (shape_view shape.now) }
{
    matches!(
        shape,
        Shape::Str {
            alphabet: Alphabet::Utf8
        }
    )
}

/// Returns that the numbers from the least to the greatest have at most 128 bits, as the types of
/// the two arguments state. The definition has any integers, so this is a fact to prove.
fn has_128_bits(least: i128, greatest: u128) -> bool
    ensures { result ≡ has_128_bits least (pos greatest) }
{
    true
}

/// Returns the entries after an extension marker, and none where there is no marker.
fn entries<T>(added: &Option<Vec<T>>) -> &[T]
    ensures { result.now ≡ entries_of added.now }
{
    match added {
        Some(entries) => entries.as_slice(),
        None => &[],
    }
}

/// Returns whether the number is that of a loop around, with a list, sequence, set, table or
/// choice between.
fn means_loop(around: &Enclosing<'_>, number: u32) -> bool
    ensures { result ≡ (nat_le (unguarded_of around.now) number && nat_lt number (loops_of
        around.now)) }
{
    match around {
        Enclosing::Loops(_) => false,
        // A loop with nothing between is not meant, whatever its number; those further out may be.
        Enclosing::Loop(outer) => number > 0 && means_loop(outer, number - 1),
        Enclosing::Part(outer) => has_loop(outer, number),
    }
}

/// Returns whether the number is that of a loop around, where 0 is the innermost.
fn has_loop(around: &Enclosing<'_>, number: u32) -> bool
    ensures { result ≡ nat_lt number (loops_of around.now) }
{
    match around {
        Enclosing::Loops(count) => (number as usize) < *count,
        Enclosing::Loop(outer) => number == 0 || has_loop(outer, number - 1),
        Enclosing::Part(outer) => has_loop(outer, number),
    }
}

/// Returns whether the field's default, if it has one, is a value of its shape.
fn suits(presence: &PresenceShape, shape: &Shape) -> bool
    ensures { result ≡ suits (presence_view presence.now) (shape_view shape.now) }
{
    match presence {
        PresenceShape::Default(plain) => is_of_shape(shape, plain),
        _ => true,
    }
}

/// Returns whether the value of a DEFAULT is one of the shape (X.680, section 25). Such values are
/// of BOOLEAN, INTEGER, ENUMERATED and the character string types alone. A number lies from the
/// least to the greatest one, a text has characters of its alphabet alone, and an item is one of
/// the root or of the additions. A value of another type than the shape's is none of it. It takes
/// no memory.
pub fn is_of_shape(shape: &Shape, plain: &Plain) -> bool
    ensures { result ≡ is_of_shape (shape_view shape.now) (plain_view plain.now) }
{
    match (shape, plain) {
        (Shape::Bool, Plain::Bool(_)) => true,
        // From 0 on, numbers are compared as `u128`: the greatest may be above `i128`.
        (
            Shape::Int {
                least,
                greatest,
                ..
            },
            Plain::Int(number),
        ) => { *least <= *number && (*number < 0 || *number as u128 <= *greatest) }
        (Shape::Str { alphabet }, Plain::Text(text)) => is_string_of(*alphabet, text.as_str()),
        (Shape::Enum { items, added }, Plain::Item(item)) => {
            has_name(items, entries(added), item.as_str())
        }
        _ => false,
    }
}

/// Whether the bytes of the text are a value of the character string type.
fn is_string_of(alphabet: Alphabet, text: &str) -> bool
    ensures { result ≡ is_string_of (alphabet_view alphabet) text.now }
{
    match alphabet {
        Alphabet::Numeric => is_utf8(text) && is_within::<Numeric>(text),
        Alphabet::Printable => is_utf8(text) && is_within::<Printable>(text),
        Alphabet::Visible => is_utf8(text) && is_within::<Visible>(text),
        Alphabet::Ia5 => is_utf8(text) && is_within::<Ia5>(text),
        Alphabet::Utf8 => is_utf8(text),
        Alphabet::Universal => is_utf8(text),
        Alphabet::General => is_octets(text.as_bytes()),
        Alphabet::Graphic => {
            is_octets(text.as_bytes()) && are_within::<Graphic>(text.as_bytes())
        }
    }
}

/// That octets are below 256, as their type says.
fn is_octets(octets: &[u8]) -> bool
    ensures { result ≡ all is_octet octets.now }
{
    are_octets(octets);
    true
}

/// Returns that the bytes of the text are UTF-8, as its type states.
fn is_utf8(text: &str) -> bool
    ensures { result ≡ is_utf8 text.now }
{
    let _text = text;
    true
}

/// Returns whether one of the lists has an alternative.
fn has_alternative(alternatives: &[AlternativeShape], added: &[AlternativeShape]) -> bool
    ensures { result ≡ has_alternative
        (join_alternatives (alternative_views alternatives.now) (alternative_views added.now)) }
{
    match alternatives.split_first() {
        Some(_) => true,
        None => match added.split_first() {
            Some(_) => true,
            None => false,
        },
    }
}

/// Returns whether the alternatives of both lists are distinguishable by identifiers and by tags.
#[tactic(auto, using(crate::proofs::ShapeNames::identifiers_viewed, crate::proofs::ShapeNames::tags_viewed))]
fn are_distinguishable(
    memory: Option<Global>,
    alternatives: &[AlternativeShape],
    added: &[AlternativeShape],
) -> bool
    ensures { result ≡ are_distinguishable
        (join_alternatives (alternative_views alternatives.now) (alternative_views added.now)) }
{
    are_identifiers(alternatives, added)
        && have_distinct_identifiers(memory, alternatives, added)
        && have_distinct_tags(memory, alternatives, added)
        && !has_tag(alternatives, added, Tag::EOC)
}

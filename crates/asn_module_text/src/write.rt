//! Writes notations behind a text, each with a space before it.
ghost use Rattle.asn_model.specs.ShapeView.{alphabet_view};
ghost use Rattle.asn_module_text.specs.Appending.{Appends};
ghost use Rattle.asn_notation.specs.Notation.{elements_of};
ghost use Rattle.asn_notation.specs.Printed.{alphabet_keyword, closed, comma_text};
ghost use Rattle.asn_notation.specs.Printed.{element_run, element_text, elements_text, item_run};
ghost use Rattle.asn_notation.specs.Printed.{items_text, keyword_print, marker_text};
ghost use Rattle.asn_notation.specs.Printed.{notation_text, opened, word_text};
ghost use Rattle.asn_notation.specs.View.{component_view, components_view, items_of, marked};
ghost use Rattle.asn_notation.specs.View.{notation_view};
ghost use Rattle.std.specs.Prelude.{◌≡◌, None, OnOk, Some, map, string_bytes};

use asn_core::OutOfMemory;
use asn_model::Alphabet;
use asn_notation::{Component, Components, Keyword, Notation};

/// Writes a word with a space before it.
///
/// # Errors
///
/// `OutOfMemory` alone.
pub fn write_word(out: &mut String, word: &str) -> Result<(), OutOfMemory>
    ensures { OnOk result (Appends (string_bytes out.old) (string_bytes out.new)
        (λ rest. word_text word.now rest)) }
{
    out.push(' ')?;
    out.push_str(word)?;
    Ok(())
}

/// Writes a reserved word with a space before it.
///
/// # Errors
///
/// `OutOfMemory` alone.
fn write_keyword(out: &mut String, keyword: Keyword) -> Result<(), OutOfMemory>
    ensures { OnOk result (Appends (string_bytes out.old) (string_bytes out.new)
        (λ rest. keyword_print keyword rest)) }
{
    write_word(out, keyword.text())
}

/// Writes two reserved words, each with a space before it.
///
/// # Errors
///
/// `OutOfMemory` alone.
fn write_keywords(out: &mut String, first: Keyword, second: Keyword) -> Result<(), OutOfMemory>
    ensures { OnOk result (Appends (string_bytes out.old) (string_bytes out.new)
        (λ rest. keyword_print first (keyword_print second rest))) }
{
    write_keyword(out, first)?;
    write_keyword(out, second)
}

/// Returns the reserved word of a string type.
fn alphabet_keyword(alphabet: Alphabet) -> Keyword
    ensures { result ≡ alphabet_keyword (alphabet_view alphabet) }
{
    match alphabet {
        Alphabet::Numeric => Keyword::NumericString,
        Alphabet::Printable => Keyword::PrintableString,
        Alphabet::Visible => Keyword::VisibleString,
        Alphabet::Ia5 => Keyword::Ia5String,
        Alphabet::Utf8 => Keyword::Utf8String,
        Alphabet::Universal => Keyword::UniversalString,
        Alphabet::General => Keyword::GeneralString,
        Alphabet::Graphic => Keyword::GraphicString,
    }
}

/// Writes a comma, but none before the first entry of a list.
///
/// # Errors
///
/// `OutOfMemory` alone.
fn write_comma(out: &mut String, first: bool) -> Result<(), OutOfMemory>
    ensures { OnOk result (Appends (string_bytes out.old) (string_bytes out.new)
        (λ rest. comma_text first rest)) }
{
    if !first {
        out.push(',')?;
    }
    Ok(())
}

/// Writes an opening brace with a space before it.
///
/// # Errors
///
/// `OutOfMemory` alone.
fn write_opening(out: &mut String) -> Result<(), OutOfMemory>
    ensures { OnOk result (Appends (string_bytes out.old) (string_bytes out.new)
        (λ rest. opened rest)) }
{
    write_word(out, "{")
}

/// Writes a closing brace with a space before it.
///
/// # Errors
///
/// `OutOfMemory` alone.
fn write_closing(out: &mut String) -> Result<(), OutOfMemory>
    ensures { OnOk result (Appends (string_bytes out.old) (string_bytes out.new)
        (λ rest. closed rest)) }
{
    write_word(out, "}")
}

/// Writes the extension marker, behind a comma where it isn't the first entry of its list.
///
/// # Errors
///
/// `OutOfMemory` alone.
fn write_marker(out: &mut String, first: bool) -> Result<(), OutOfMemory>
    ensures { OnOk result (Appends (string_bytes out.old) (string_bytes out.new)
        (λ rest. comma_text first (marker_text rest))) }
{
    write_comma(out, first)?;
    write_word(out, "...")
}

/// Writes items of an ENUMERATED, each behind a comma but the first of a list.
///
/// # Errors
///
/// `OutOfMemory` alone.
fn write_item_run(out: &mut String, items: &[String], first: bool) -> Result<(), OutOfMemory>
    ensures { OnOk result (Appends (string_bytes out.old) (string_bytes out.new)
        (λ rest. item_run first (map (λ i. Some (string_bytes i)) items.now) rest)) }
{
    let mut is_first = first;
    for item in items {
        write_comma(out, is_first)?;
        write_word(out, item.as_str())?;
        is_first = false;
    }
    Ok(())
}

/// Writes the extension marker and the items behind it, if there is one, where the first entry of
/// the list has no comma before it.
///
/// # Errors
///
/// `OutOfMemory` alone.
fn write_added_items(
    out: &mut String,
    added: &Option<Vec<String>>,
    first: bool,
) -> Result<(), OutOfMemory>
    ensures { OnOk result (Appends (string_bytes out.old) (string_bytes out.new)
        (λ rest. item_run first (marked (λ i. Some (string_bytes i)) None added.now) rest)) }
{
    match added {
        Some(added) => {
            write_marker(out, first)?;
            write_item_run(out, added, false)
        }
        None => Ok(()),
    }
}

/// Writes the items of an ENUMERATED between braces.
///
/// # Errors
///
/// `OutOfMemory` alone.
fn write_items(
    out: &mut String,
    items: &[String],
    added: &Option<Vec<String>>,
) -> Result<(), OutOfMemory>
    ensures { OnOk result (Appends (string_bytes out.old) (string_bytes out.new)
        (λ rest. items_text (items_of items.now added.now) rest)) }
{
    write_opening(out)?;
    write_item_run(out, items, true)?;
    write_added_items(out, added, items.is_empty())?;
    write_closing(out)?;
    Ok(())
}

/// Writes a component or an alternative with a space before it.
///
/// # Errors
///
/// `OutOfMemory` alone.
#[cycle(write)]
fn write_component(out: &mut String, component: &Component) -> Result<(), OutOfMemory>
    ensures { OnOk result (Appends (string_bytes out.old) (string_bytes out.new)
        (λ rest. element_text (component_view component.now) rest)) }
{
    write_word(out, component.name.as_str())?;
    write_notation(out, &component.notation)?;
    if component.optional {
        write_keyword(out, Keyword::Optional)?;
    }
    Ok(())
}

/// Writes components or alternatives, each behind a comma but the first of a list.
///
/// # Errors
///
/// `OutOfMemory` alone.
#[cycle(write)]
fn write_run(out: &mut String, components: &[Component], first: bool) -> Result<(), OutOfMemory>
    ensures { OnOk result (Appends (string_bytes out.old) (string_bytes out.new)
        (λ rest. element_run first (elements_of (map component_view components.now)) rest)) }
{
    let mut is_first = first;
    for component in components {
        write_comma(out, is_first)?;
        write_component(out, component)?;
        is_first = false;
    }
    Ok(())
}

/// Writes components or alternatives between braces.
///
/// # Errors
///
/// `OutOfMemory` alone.
#[cycle(write)]
fn write_components(out: &mut String, components: &Components) -> Result<(), OutOfMemory>
    ensures { OnOk result (Appends (string_bytes out.old) (string_bytes out.new)
        (λ rest. elements_text (elements_of (components_view components.now)) rest)) }
{
    let root = components.root.as_slice();
    write_opening(out)?;
    write_run(out, root, true)?;
    match &components.added {
        Some(added) => {
            write_marker(out, root.is_empty())?;
            write_run(out, added, false)?;
            write_closing(out)?;
            Ok(())
        }
        None => {
            write_closing(out)?;
            Ok(())
        }
    }
}

/// Writes a notation with a space before it.
///
/// # Errors
///
/// `OutOfMemory` alone.
#[cycle(write)]
pub fn write_notation(out: &mut String, notation: &Notation) -> Result<(), OutOfMemory>
    ensures { OnOk result (Appends (string_bytes out.old) (string_bytes out.new)
        (λ rest. notation_text (notation_view notation.now) rest)) }
{
    match notation {
        Notation::Boolean => write_keyword(out, Keyword::Boolean),
        Notation::Null => write_keyword(out, Keyword::Null),
        Notation::Integer => write_keyword(out, Keyword::Integer),
        Notation::OctetString => write_keywords(out, Keyword::Octet, Keyword::String),
        Notation::BitString => write_keywords(out, Keyword::Bit, Keyword::String),
        Notation::ObjectIdentifier => write_keywords(out, Keyword::Object, Keyword::Identifier),
        Notation::Text(alphabet) => write_keyword(out, alphabet_keyword(*alphabet)),
        Notation::Bmp => write_keyword(out, Keyword::BmpString),
        Notation::Sequence(components) => {
            write_keyword(out, Keyword::Sequence)?;
            write_components(out, components)
        }
        Notation::Set(components) => {
            write_keyword(out, Keyword::Set)?;
            write_components(out, components)
        }
        Notation::SequenceOf(element) => {
            write_keywords(out, Keyword::Sequence, Keyword::Of)?;
            write_notation(out, element)
        }
        Notation::SetOf(element) => {
            write_keywords(out, Keyword::Set, Keyword::Of)?;
            write_notation(out, element)
        }
        Notation::Choice(alternatives) => {
            write_keyword(out, Keyword::Choice)?;
            write_components(out, alternatives)
        }
        Notation::Enumerated { items, added } => {
            write_keyword(out, Keyword::Enumerated)?;
            write_items(out, items, added)
        }
        Notation::Reference(name) => write_word(out, name.as_str()),
    }
}

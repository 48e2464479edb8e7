//! Writes types.
ghost use Rattle.asn_model.specs.ShapeView.{alternative_views, field_views, shape_view};
ghost use Rattle.asn_type_printing.specs.Levels.{level_of};
ghost use Rattle.asn_type_printing.specs.Names.{name_at};
ghost use Rattle.asn_type_printing.specs.Printed.{alternative_lines, closing, comma_text};
ghost use Rattle.asn_type_printing.specs.Printed.{enumerated_text, field_lines, item_list};
ghost use Rattle.asn_type_printing.specs.Printed.{marker_line, name_line, type_text};
ghost use Rattle.asn_type_printing.specs.Printed.{without_values};
ghost use Rattle.std.specs.Prelude.{◌≡◌, ◌++◌, OnOk, map, option_map, string_bytes};

use crate::level::{Level, write_line};
use crate::values::write_presence;
use crate::words::kind_word;
use asn_core::OutOfMemory;
use asn_model::{AlternativeShape, FieldShape, Shape};

/// Returns the name of the type of a number, or an empty one where there is none.
pub fn name_at(names: &[String], number: usize) -> &str
    ensures { result.now ≡ name_at (map string_bytes names.now) number }
{
    match names.get(number) {
        Some(name) => name.as_str(),
        None => "",
    }
}

/// Writes a comma, but none before the first entry of a list.
///
/// # Errors
///
/// Where memory runs out.
fn write_comma(first: bool, out: &mut String) -> Result<(), OutOfMemory>
    ensures { OnOk result (string_bytes out.new ≡ string_bytes out.old ++ comma_text first) }
{
    if first {
        return Ok(());
    }
    Ok(out.push_str(",")?)
}

/// Writes items, each with a blank before it, and behind a comma but the first of the list.
///
/// # Errors
///
/// Where memory runs out.
fn write_items(items: &[String], first: bool, out: &mut String) -> Result<(), OutOfMemory>
    ensures { OnOk result (string_bytes out.new
        ≡ string_bytes out.old ++ item_list first (map string_bytes items.now)) }
{
    let mut is_first = first;
    for item in items {
        write_comma(is_first, out)?;
        out.push_str(" ")?;
        out.push_str(item)?;
        is_first = false;
    }
    Ok(())
}

/// Writes what stands for a type without values: EXTERNAL, of which no value is read, and a comment
/// that says so.
///
/// # Errors
///
/// Where memory runs out.
fn write_without_values(out: &mut String) -> Result<(), OutOfMemory>
    ensures { OnOk result (string_bytes out.new ≡ string_bytes out.old ++ without_values) }
{
    Ok(out.push_str("EXTERNAL -- no values are read --")?)
}

/// Writes an ENUMERATED.
///
/// # Errors
///
/// Where memory runs out.
fn write_enumerated(
    items: &[String],
    added: &Option<Vec<String>>,
    out: &mut String,
) -> Result<(), OutOfMemory>
    ensures { OnOk result (string_bytes out.new ≡ string_bytes out.old
        ++ enumerated_text (map string_bytes items.now)
        (option_map (λ v. map string_bytes v.items) added.now)) }
{
    match added {
        Some(added) => {
            out.push_str("ENUMERATED {")?;
            write_items(items, true, out)?;
            write_comma(items.is_empty(), out)?;
            out.push_str(" ...")?;
            write_items(added, false, out)?;
            Ok(out.push_str(" }")?)
        }
        None => {
            if items.is_empty() {
                return write_without_values(out);
            }
            out.push_str("ENUMERATED {")?;
            write_items(items, true, out)?;
            Ok(out.push_str(" }")?)
        }
    }
}

/// Writes a name at the beginning of a line, behind a comma but where it is the first entry, and a
/// blank after it.
///
/// # Errors
///
/// Where memory runs out.
fn write_name(
    first: bool,
    name: &str,
    level: &Level<'_>,
    out: &mut String,
) -> Result<(), OutOfMemory>
    ensures { OnOk result (string_bytes out.new
        ≡ string_bytes out.old ++ name_line (level_of level.now) first name.now) }
{
    write_comma(first, out)?;
    write_line(level, out)?;
    out.push_str(name)?;
    Ok(out.push_str(" ")?)
}

/// Writes the extension marker at the beginning of a line, behind a comma but where it is the first
/// entry.
///
/// # Errors
///
/// Where memory runs out.
fn write_marker(first: bool, level: &Level<'_>, out: &mut String) -> Result<(), OutOfMemory>
    ensures { OnOk result (string_bytes out.new
        ≡ string_bytes out.old ++ marker_line (level_of level.now) first) }
{
    write_comma(first, out)?;
    write_line(level, out)?;
    Ok(out.push_str("...")?)
}

/// Writes the closing brace, at the beginning of a line but where nothing is between the braces.
///
/// # Errors
///
/// Where memory runs out.
fn write_closing(level: &Level<'_>, empty: bool, out: &mut String) -> Result<(), OutOfMemory>
    ensures { OnOk result (string_bytes out.new
        ≡ string_bytes out.old ++ closing (level_of level.now) empty) }
{
    if empty {
        return Ok(out.push_str("}")?);
    }
    write_line(level, out)?;
    Ok(out.push_str("}")?)
}

/// Writes a type, at this level, by the names of types.
///
/// # Errors
///
/// Where memory runs out.
#[cycle(write)]
pub fn write_type(
    shape: &Shape,
    names: &[String],
    level: &Level<'_>,
    out: &mut String,
) -> Result<(), OutOfMemory>
    ensures { OnOk result (string_bytes out.new ≡ string_bytes out.old
        ++ type_text (map string_bytes names.now) (level_of level.now) (shape_view shape.now)) }
{
    match shape {
        Shape::Bits { fixed: Some(size) } => Ok(write!(out, "BIT STRING (SIZE ({size}))")?),
        Shape::Enum { items, added } => write_enumerated(items, added, out),
        Shape::Seq { fields, added, .. } => {
            let within = Level::Within(&*level);
            out.push_str(kind_word(shape))?;
            out.push_str(" {")?;
            write_fields(fields, true, names, &within, out)?;
            match added {
                Some(added) => {
                    write_marker(fields.is_empty(), &within, out)?;
                    write_fields(added, false, names, &within, out)?;
                    write_closing(level, false, out)
                }
                None => write_closing(level, fields.is_empty(), out),
            }
        }
        Shape::ListOf(part) => {
            out.push_str("SEQUENCE OF ")?;
            write_type(part, names, level, out)
        }
        Shape::SetOf(part) => {
            out.push_str("SET OF ")?;
            write_type(part, names, level, out)
        }
        Shape::Table(part) => {
            out.push_str("SEQUENCE OF ")?;
            write_type(part, names, level, out)
        }
        Shape::Choice {
            alternatives,
            added,
        } => {
            let within = Level::Within(&*level);
            out.push_str("CHOICE {")?;
            write_alternatives(alternatives, true, names, &within, out)?;
            match added {
                Some(added) => {
                    write_marker(alternatives.is_empty(), &within, out)?;
                    write_alternatives(added, false, names, &within, out)?;
                    write_closing(level, false, out)
                }
                None => write_closing(level, alternatives.is_empty(), out),
            }
        }
        Shape::Loop(_) => write_without_values(out),
        Shape::Back(number) => Ok(out.push_str(name_at(names, *number as usize))?),
        leaf => Ok(out.push_str(kind_word(leaf))?),
    }
}

/// Writes a line for each field.
///
/// # Errors
///
/// Where memory runs out.
#[cycle(write)]
fn write_fields(
    fields: &[FieldShape],
    first: bool,
    names: &[String],
    level: &Level<'_>,
    out: &mut String,
) -> Result<(), OutOfMemory>
    ensures { OnOk result (string_bytes out.new ≡ string_bytes out.old
        ++ field_lines (map string_bytes names.now) (level_of level.now) first
        (field_views fields.now)) }
{
    let mut is_first = first;
    for field in fields {
        write_name(is_first, field.name.as_str(), level, out)?;
        write_type(&field.shape, names, level, out)?;
        write_presence(&field.presence, out)?;
        is_first = false;
    }
    Ok(())
}

/// Writes a line for each alternative.
///
/// # Errors
///
/// Where memory runs out.
#[cycle(write)]
fn write_alternatives(
    alternatives: &[AlternativeShape],
    first: bool,
    names: &[String],
    level: &Level<'_>,
    out: &mut String,
) -> Result<(), OutOfMemory>
    ensures { OnOk result (string_bytes out.new ≡ string_bytes out.old
        ++ alternative_lines (map string_bytes names.now) (level_of level.now) first
        (alternative_views alternatives.now)) }
{
    let mut is_first = first;
    for alternative in alternatives {
        write_name(is_first, alternative.identifier.as_str(), level, out)?;
        write_type(&alternative.shape, names, level, out)?;
        is_first = false;
    }
    Ok(())
}

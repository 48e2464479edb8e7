//! The parts of printed text that values and nodes share.
ghost use Rattle.std.specs.Prelude.{◌≡◌, ◌++◌, codes, suc};
ghost use Rattle.std.specs.Fmt.{WritesOnOk};
ghost use Rattle.avn_grammar.specs.Tree.{octet_string, bit_string, oid, char_string};
ghost use Rattle.avn_grammar.specs.Chars.{quote_is_doubled};
ghost use Rattle.avn_grammar.specs.Print.{print, indent, separator};
ghost use Rattle.avn_nodes.specs.Levels.{depth_of, closing_of};

use crate::digits::{write_arcs, write_bits, write_hex};
use std::fmt;

/// The open braces, the innermost first, as a chain of references: no number of levels can
/// overflow, and printing takes no memory.
#[derive(Drop)]
pub enum Levels<'a> {
    /// No brace is open.
    Root,
    /// A brace is open within those of the levels.
    Under(&'a Levels<'a>),
}

/// Writes two spaces for each level, for two levels together.
fn write_indent<W: fmt::Write>(levels: &Levels<'_>, f: &mut fmt::Formatter<W>) -> fmt::Result
    ensures { WritesOnOk W.write_str_gives f.old result (indent (depth_of levels.now)) f.new }
{
    match levels {
        Levels::Root => Ok(()),
        Levels::Under(Levels::Root) => f.write_str("  "),
        Levels::Under(Levels::Under(up)) => {
            f.write_str("    ")?;
            write_indent(up, f)
        }
    }
}

/// Returns what stands before a row, and the spaces of one level.
fn separator(row: usize) -> &'static str
    ensures { result.now ≡ separator row ++ codes "  " }
{
    if row == 0 { "\n  " } else { ",\n  " }
}

/// Writes what stands before the value of a row of a list in braces at the levels.
pub fn begin_row<W: fmt::Write>(
    row: usize,
    levels: &Levels<'_>,
    f: &mut fmt::Formatter<W>,
) -> fmt::Result
    ensures { WritesOnOk W.write_str_gives f.old result
        (separator row ++ indent (suc (depth_of levels.now))) f.new }
{
    f.write_str(separator(row))?;
    write_indent(levels, f)
}

/// Writes what stands before the value of a field, which is its name and a space in a row.
pub fn begin_field<W: fmt::Write>(
    row: usize,
    name: &str,
    levels: &Levels<'_>,
    f: &mut fmt::Formatter<W>,
) -> fmt::Result
    ensures { WritesOnOk W.write_str_gives f.old result
        (separator row ++ indent (suc (depth_of levels.now)) ++ name.now ++ codes " ") f.new }
{
    begin_row(row, levels, f)?;
    f.write_str(name)?;
    f.write_str(" ")
}

/// Writes the closing brace after so many rows.
pub fn write_close<W: fmt::Write>(
    rows: usize,
    levels: &Levels<'_>,
    f: &mut fmt::Formatter<W>,
) -> fmt::Result
    ensures { WritesOnOk W.write_str_gives f.old result
        (closing_of (depth_of levels.now) rows) f.new }
{
    if rows == 0 {
        return f.write_str("}");
    }
    f.write_str("\n")?;
    write_indent(levels, f)?;
    f.write_str("}")
}

/// Writes a text with each quote doubled.
fn write_doubled<W: fmt::Write>(text: &str, f: &mut fmt::Formatter<W>) -> fmt::Result
    ensures { WritesOnOk W.write_str_gives f.old result (quote_is_doubled text.now) f.new }
{
    let mut rest = text;
    while let Some((run, after)) = rest.split_once('"') {
        f.write_str(run)?;
        f.write_str("\"\"")?;
        rest = after;
    }
    f.write_str(rest)
}

/// Writes a text in quotes.
#[tactic(auto, unfolding(avn_grammar::specs::Print::print))]
pub fn write_text<W: fmt::Write>(text: &str, f: &mut fmt::Formatter<W>) -> fmt::Result
    ensures { WritesOnOk W.write_str_gives f.old result (print 0 (char_string text.now)) f.new }
{
    f.write_str("\"")?;
    write_doubled(text, f)?;
    f.write_str("\"")
}

/// Writes octets in hexadecimal.
#[tactic(auto, unfolding(avn_grammar::specs::Print::print))]
pub fn write_octets<W: fmt::Write>(octets: &[u8], f: &mut fmt::Formatter<W>) -> fmt::Result
    ensures { WritesOnOk W.write_str_gives f.old result (print 0 (octet_string octets.now)) f.new }
{
    f.write_str("'")?;
    write_hex(octets, f)?;
    f.write_str("'H")
}

/// Writes a bit string: in binary, or in hexadecimal where it has whole octets.
#[tactic(auto, unfolding(avn_grammar::specs::Print::print))]
pub fn write_bit_string<W: fmt::Write>(
    octets: &[u8],
    bit_length: usize,
    f: &mut fmt::Formatter<W>,
) -> fmt::Result
    ensures { WritesOnOk W.write_str_gives f.old result
        (print 0 (bit_string octets.now bit_length)) f.new }
{
    if bit_length == 0 {
        return f.write_str("''H");
    }
    if bit_length % 8 == 0 {
        return write_octets(octets, f);
    }
    f.write_str("'")?;
    write_bits(octets, bit_length, f)?;
    f.write_str("'B")
}

/// Writes the arcs of an object identifier in braces.
#[tactic(auto, unfolding(avn_grammar::specs::Print::print))]
pub fn write_oid<W: fmt::Write>(arcs: &[u32], f: &mut fmt::Formatter<W>) -> fmt::Result
    ensures { WritesOnOk W.write_str_gives f.old result (print 0 (oid arcs.now)) f.new }
{
    f.write_str("{")?;
    write_arcs(arcs, f)?;
    f.write_str(" }")
}

//! Writes the beginnings of lines.
ghost use Rattle.asn_type_printing.specs.Levels.{indent, level_of, new_line};
ghost use Rattle.std.specs.Prelude.{◌≡◌, ◌++◌, OnOk, string_bytes};

use asn_core::OutOfMemory;

/// Is a level of nesting, as a chain of references on the stack, so that no count of levels can
/// overflow.
#[derive(Drop)]
pub enum Level<'l> {
    /// Nothing is around.
    Outermost,
    /// Braces stand around it at this level.
    Within(&'l Level<'l>),
}

/// Writes two blanks for each level.
///
/// # Errors
///
/// Where memory runs out.
fn write_indent(level: &Level<'_>, out: &mut String) -> Result<(), OutOfMemory>
    ensures { OnOk result (string_bytes out.new
        ≡ string_bytes out.old ++ indent (level_of level.now)) }
{
    match level {
        Level::Outermost => Ok(()),
        Level::Within(outer) => {
            write_indent(outer, out)?;
            Ok(out.push_str("  ")?)
        }
    }
}

/// Begins a line at a level.
///
/// # Errors
///
/// Where memory runs out.
pub fn write_line(level: &Level<'_>, out: &mut String) -> Result<(), OutOfMemory>
    ensures { OnOk result (string_bytes out.new
        ≡ string_bytes out.old ++ new_line (level_of level.now)) }
{
    out.push_str("\n")?;
    write_indent(level, out)
}

//! Writes what stands behind the type of a component.
ghost use Rattle.asn_model.specs.ShapeView.{plain_view, presence_view};
ghost use Rattle.asn_type_printing.specs.Printed.{default_text, presence_text};
ghost use Rattle.avn_grammar.specs.Print.{print};
ghost use Rattle.avn_grammar.specs.Tree.{char_string};
ghost use Rattle.std.specs.Prelude.{◌≡◌, ◌++◌, OnOk, Some, string_bytes};

use asn_core::OutOfMemory;
use asn_model::{Plain, PresenceShape};
use avn_nodes::print_parts::write_text;
use std::fmt;

/// Prints a text between quotes, with each quote in it twice.
#[derive(Drop)]
struct Quoted<'t>(&'t str);

impl fmt::Display for Quoted<'_> {
    ghost output = { λ quoted. Some (print 0 (char_string quoted.0.now)) };

    fn fmt<W: fmt::Write>(&self, f: &mut fmt::Formatter<W>) -> fmt::Result {
        write_text(self.0, f)
    }
}

/// Writes the value of a DEFAULT.
///
/// # Errors
///
/// Where memory runs out.
fn write_default(value: &Plain, out: &mut String) -> Result<(), OutOfMemory>
    ensures { OnOk result (string_bytes out.new
        ≡ string_bytes out.old ++ default_text (plain_view value.now)) }
{
    match value {
        Plain::Bool(true) => Ok(out.push_str("TRUE")?),
        Plain::Bool(false) => Ok(out.push_str("FALSE")?),
        Plain::Int(number) => Ok(write!(out, "{number}")?),
        Plain::Text(text) => {
            let quoted = Quoted(text.as_str());
            Ok(write!(out, "{quoted}")?)
        }
        Plain::Item(identifier) => Ok(out.push_str(identifier)?),
    }
}

/// Writes whether a component may be absent, and what then stands for it.
///
/// # Errors
///
/// Where memory runs out.
pub fn write_presence(presence: &PresenceShape, out: &mut String) -> Result<(), OutOfMemory>
    ensures { OnOk result (string_bytes out.new
        ≡ string_bytes out.old ++ presence_text (presence_view presence.now)) }
{
    match presence {
        PresenceShape::Required => Ok(()),
        PresenceShape::Optional => Ok(out.push_str(" OPTIONAL")?),
        PresenceShape::Default(value) => {
            out.push_str(" DEFAULT ")?;
            write_default(value, out)
        }
    }
}

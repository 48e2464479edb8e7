//! Holds the path to a part of a type.
ghost use Rattle.asn_version_reports.specs.Paths.{path_steps, path_text};
ghost use Rattle.std.specs.List.{join_with_byte};
ghost use Rattle.std.specs.Prelude.{◌≡◌, ◌++◌, IfOk, OnOk, string_bytes};

use asn_core::OutOfMemory;
use std::alloc::Global;

/// Leads from a type to one of its parts, as a chain of references on the stack.
#[derive(Drop)]
pub enum Path<'p> {
    /// The part is the type itself.
    Root,
    /// The last step leads to the part: the name of a field, the identifier of an alternative, or
    /// `*` for an element or entry. The other steps lead to what it is a part of.
    Step(&'p str, &'p Path<'p>),
}

/// Returns the steps of the path with a point between each two, or `(the type itself)` where there
/// is none.
///
/// # Errors
///
/// Where memory runs out.
pub fn path_text(alloc: Global, path: &Path<'_>) -> Result<String, OutOfMemory>
    ensures { IfOk result (λ s. string_bytes s ≡ path_text (path_steps path.now)) }
{
    if let Path::Root = path {
        return Ok(String::from_str(alloc, "(the type itself)")?);
    }
    let mut text = String::new(alloc);
    add_steps(path, &mut text)?;
    Ok(text)
}

/// Adds the steps of the path to the text, with a point between each two.
///
/// # Errors
///
/// Where memory runs out.
fn add_steps(path: &Path<'_>, text: &mut String) -> Result<(), OutOfMemory>
    ensures { OnOk result (string_bytes text.new
        ≡ string_bytes text.old ++ join_with_byte 46 (path_steps path.now)) }
{
    match path {
        Path::Root => Ok(()),
        Path::Step(step, outer) => match outer {
            Path::Root => Ok(text.push_str(step)?),
            Path::Step(..) => {
                add_steps(outer, text)?;
                text.push_str(".")?;
                Ok(text.push_str(step)?)
            }
        },
    }
}

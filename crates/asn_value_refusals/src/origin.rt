//! Says what a text comes from.
ghost use Rattle.asn_value_refusals.specs.Lines.{not_text_line, origin_text};
ghost use Rattle.std.specs.Prelude.{◌≡◌, IfOk, string_bytes};

use asn_core::OutOfMemory;
use std::alloc::Global;

/// Is what a text comes from.
#[derive(Clone, Copy)]
pub struct Origin<'a> {
    /// Is the name of the file.
    pub file: &'a str,
    /// Is the number of the line that the text is in a stream of lines, counted from 1, or `None`
    /// where the text is the whole file.
    pub line: Option<u64>,
}

/// Returns the name of the file, and after a colon the number of the line, if there is one.
///
/// # Errors
///
/// `OutOfMemory` alone.
pub fn origin_of(alloc: Global, origin: Origin<'_>) -> Result<String, OutOfMemory>
    ensures { IfOk result (λ s. string_bytes s ≡ origin_text origin.entry) }
{
    let file = origin.file;
    match origin.line {
        Some(line) => Ok(format!(in alloc; "{file}:{line}")?),
        None => Ok(String::from_str(alloc, file)?),
    }
}

/// Returns the line that says that a text of this origin isn't UTF-8.
///
/// # Errors
///
/// `OutOfMemory` alone.
pub fn not_text_line(alloc: Global, origin: Origin<'_>) -> Result<String, OutOfMemory>
    ensures { IfOk result (λ s. string_bytes s ≡ not_text_line origin.entry) }
{
    let front = origin_of(alloc, origin)?;
    Ok(format!(in alloc; "{front}: isn't UTF-8\n")?)
}

//! Ends a text as a line.
ghost use Rattle.std.specs.Prelude.{◌≡◌, ◌∷◌, ◌++◌, [], IfOk, string_bytes};

use asn_core::OutOfMemory;

/// Returns the text with a line feed behind it.
///
/// # Errors
///
/// `OutOfMemory` alone.
pub fn with_feed(text: String) -> Result<String, OutOfMemory>
    ensures { IfOk result (λ s. string_bytes s ≡ string_bytes text ++ 10 ∷ []) }
{
    let mut line = text;
    line.push('\n')?;
    Ok(line)
}

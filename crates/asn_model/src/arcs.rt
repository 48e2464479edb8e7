//! The arcs of object identifiers as texts (X.680, section 32).
ghost use Rattle.asn_model.specs.Arcs.{arc_number};
ghost use Rattle.std.specs.Fmt.{decimal};
ghost use Rattle.std.specs.List.{join_by};
ghost use Rattle.std.specs.Prelude.{◌≡◌, IfOk, string_bytes};

use asn_core::OutOfMemory;
use std::alloc::Global;

/// Returns the arc that a text is: an optional `+` and decimal digits, whose number is below 2^32.
/// None exactly where the text is no arc.
pub fn arc_of(text: &str) -> Option<u32>
    ensures { result ≡ arc_number text.now }
{
    text.parse::<u32>().ok()
}

/// Returns the arcs in decimal, with the separator between each two.
///
/// # Errors
///
/// Lack of memory alone.
pub fn joined_arcs(alloc: Global, arcs: &[u32], separator: &str) -> Result<String, OutOfMemory>
    ensures { IfOk result (λ text. string_bytes text ≡ join_by decimal separator.now arcs.now) }
{
    let mut text = String::new(alloc);
    for (place, arc) in arcs.iter().enumerate() {
        if place > 0 {
            text.push_str(separator)?;
        }
        write!(text, "{arc}")?;
    }
    Ok(text)
}

//! Reports the parts of a type that can't be compared with those of another version.
ghost use Rattle.asn_model.specs.ShapeView.{shape_view};
ghost use Rattle.asn_version_reports.specs.Valueless.{uncompared_line, uncompared_lines};
ghost use Rattle.asn_version_reports.specs.Valueless.{valueless_paths};
ghost use Rattle.std.specs.List.{flat_map};
ghost use Rattle.std.specs.Prelude.{◌≡◌, ◌↔◌, [], IfOk, map, string_bytes};

use crate::valueless::parts_without_values;
use asn_core::OutOfMemory;
use asn_model::Shape;
use std::alloc::Global;

/// Returns a line for each part of the type that has no values, the type itself included: the path
/// to it, as `parts_without_values` returns it, and that it isn't compared. Two such parts are
/// alike whatever they are in a schema, so nothing can be said of their versions. The text is empty
/// exactly where each part has values.
///
/// # Errors
///
/// Where memory runs out.
pub fn uncompared_report(alloc: Global, shape: &Shape) -> Result<String, OutOfMemory>
    ensures text { IfOk result (λ s. string_bytes s ≡ uncompared_lines (shape_view shape.now)) }
    ensures none { IfOk result (λ s. (string_bytes s ≡ [])
        ↔ (valueless_paths (shape_view shape.now) ≡ [])) }
{
    let parts = parts_without_values(alloc, shape)?;
    lines_on_parts(alloc, &parts)
}

/// Returns a line for each of these parts.
///
/// # Errors
///
/// Where memory runs out.
fn lines_on_parts(alloc: Global, parts: &[String]) -> Result<String, OutOfMemory>
    ensures { IfOk result (λ s. string_bytes s
        ≡ flat_map uncompared_line (map string_bytes parts.now)) }
{
    let mut lines = String::new(alloc);
    for part in parts {
        let line = format!(in alloc; "{part}: no value of it is read, so it isn't compared\n")?;
        lines.push_str(line.as_str())?;
    }
    Ok(lines)
}

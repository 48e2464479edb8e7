//! Reads object identifiers from JSON values: texts of arcs with `.` between each two.
ghost use Rattle.asn_model.specs.declared.leaves.LeafKind.TheVariants.{Oid};
ghost use Rattle.asn_traits.specs.Arcs.{arc_numbers};
ghost use Rattle.asn_traits.specs.Notation.{Notation};
ghost use Rattle.asn_coding.specs.Opening.{IsTaken};
ghost use Rattle.jer_rules.specs.Identifiers.{IsDotted};
ghost use Rattle.jer_rules.specs.NoLeaves.{IsNoLeaf};
ghost use Rattle.jer_rules.specs.Pending.{tree_of};
ghost use Rattle.std.specs.List.{slice_split};
ghost use Rattle.std.specs.Prelude.{◌≡◌, ◌==◌, IfOk, MatchResult, map, option_map};

use super::leaves::NoLeaf;
use asn_core::{ObjectIdentifier, OutOfMemory};
use asn_model::arc_of;
use asn_traits::OwnedLeaf;
use serde_json::Value;
use std::alloc::{AllocError, Global};

/// Returns the object identifier that a JSON value is.
///
/// # Errors
///
/// `Kind` where the value is no string; `Arcs` where its text is no object identifier;
/// `OutOfMemory`.
pub fn identifier_of_json(alloc: Global, value: Value) -> Result<OwnedLeaf, NoLeaf>
    ensures { MatchResult result (IsTaken Notation.jer Oid (tree_of value))
        (IsNoLeaf Oid value) }
{
    let text = match value {
        Value::String(text) => text,
        other => return Err(NoLeaf::Kind(other)),
    };
    match identifier_of(alloc, text.as_str()) {
        Ok(Some(identifier)) => Ok(OwnedLeaf::Oid(identifier)),
        Ok(None) => Err(NoLeaf::Arcs(text)),
        Err(_) => Err(NoLeaf::OutOfMemory),
    }
}

/// Returns the object identifier of a text of arcs with `.` between each two. None exactly where
/// the text is none.
///
/// # Errors
///
/// `OutOfMemory` alone.
fn identifier_of(alloc: Global, text: &str) -> Result<Option<ObjectIdentifier>, OutOfMemory>
    ensures { IfOk result (IsDotted text.now) }
{
    match arcs_of(alloc, text)? {
        Some(arcs) => ObjectIdentifier::new(alloc, arcs.as_slice()),
        None => Ok(None),
    }
}

/// Returns the arcs that stand between the dots of a text. None exactly where a part is no arc.
///
/// # Errors
///
/// `OutOfMemory` alone.
fn arcs_of(alloc: Global, text: &str) -> Result<Option<Vec<u32>>, OutOfMemory>
    ensures { IfOk result (λ arcs. option_map (λ v. v.items) arcs
        ≡ arc_numbers (slice_split (λ c. c == 46) text.now)) }
{
    let parts = parts_of(alloc, text)?;
    let mut arcs = Vec::new(alloc);
    for part in parts.iter() {
        let Some(arc) = arc_of(part) else {
            return Ok(None);
        };
        arcs.push(arc)?;
    }
    Ok(Some(arcs))
}

/// Returns the parts of a text between its dots.
///
/// # Errors
///
/// `AllocError` alone.
fn parts_of(alloc: Global, text: &str) -> Result<Vec<&str>, AllocError>
    ensures { IfOk result (λ v. map (λ x. x.now) v.items
        ≡ slice_split (λ c. c == 46) text.now) }
{
    text.split('.').collect(alloc)
}

//! Reports what a text of messages of a newer type is cut to for an older one: the lines that are
//! kept, and why the others are not.
ghost use Rattle.asn_convert.specs.Reports.{CanKeepAll, IsReport, refusal_line};
ghost use Rattle.asn_growth.specs.Parts.{node_count};
ghost use Rattle.asn_model.specs.Readable.{is_readable};
ghost use Rattle.asn_model.specs.ShapeView.{shape_view};
ghost use Rattle.asn_samples.specs.Samples.{sample_shape};
ghost use Rattle.std.specs.List.{flat_map};
ghost use Rattle.std.specs.Prelude.{◌≡◌, ◌<◌, ◌^◌, ◌++◌, ◌==◌, IfOk, length, string_bytes, true};

use asn_core::{Codec, OutOfMemory};
use asn_filter::{FilterFault, Kept, LineFault, keep};
use asn_model::Shape;
use asn_samples::Sample;
use std::alloc::Global;

/// Holds a report.
#[derive(Debug, Drop)]
pub struct Report {
    /// Holds its lines, each with a line feed after it.
    pub text: String,
    /// States whether every line of the text was kept.
    pub is_whole: bool,
}

/// Returns the lines of a text of values of the newer sample type, each cut to what the older one
/// knows and written in JSON, and then a line for each that is refused: `line `, its number from
/// 1, `: ` and why. Where the newer type is no later version of the older one, the only line is
/// `refused: shapes differ at ` and the number of the first node of the older one that differs.
///
/// # Errors
///
/// `OutOfMemory` alone.
pub fn keeping_report(
    alloc: Global,
    from: Codec,
    old: Sample,
    new: Sample,
    text: &str,
) -> Result<Report, OutOfMemory>
    // Each clause is that of `shapes_report` of the shapes of the two.
    ensures report { IfOk result (λ r. IsReport from (sample_shape old) (sample_shape new)
        text.now (string_bytes r.text) r.is_whole) }
    ensures complete { CanKeepAll from (sample_shape old) (sample_shape new) text.now
        → IfOk result (λ r. r.is_whole ≡ true) }
{
    let older = old.shape(alloc)?;
    let newer = new.shape(alloc)?;
    shapes_report(alloc, from, &older, &newer, text)
}

/// Does the same by the shapes of the two types.
///
/// # Errors
///
/// `OutOfMemory` alone.
pub fn shapes_report(
    alloc: Global,
    from: Codec,
    old: &Shape,
    new: &Shape,
    text: &str,
) -> Result<Report, OutOfMemory>
    requires readable_old { is_readable (shape_view old.now) ≡ true }
    requires readable_new { is_readable (shape_view new.now) ≡ true }
    requires few_nodes { node_count (shape_view old.now) < 2 ^ 32 }
    // The lines are those that are kept and those on the others, or the one on a difference.
    ensures report { IfOk result (λ r. IsReport from (shape_view old.now) (shape_view new.now)
        text.now (string_bytes r.text) r.is_whole) }
    // Where the newer type is a later version and each line can be kept, each is.
    ensures complete { CanKeepAll from (shape_view old.now) (shape_view new.now) text.now
        → IfOk result (λ r. r.is_whole ≡ true) }
{
    match keep(alloc, from, old, new, text) {
        Ok(kept) => kept_report(alloc, kept),
        Err(FilterFault::NotGrown { place, .. }) => Ok(Report {
            text: format!(in alloc; "refused: shapes differ at {place}\n")?,
            is_whole: false,
        }),
        Err(FilterFault::OutOfMemory) => Err(OutOfMemory),
    }
}

/// Returns what was kept, and behind it a line for each line that is refused.
///
/// # Errors
///
/// `OutOfMemory` alone.
fn kept_report(alloc: Global, kept: Kept) -> Result<Report, OutOfMemory>
    ensures text { IfOk result (λ r. string_bytes r.text
        ≡ string_bytes kept.text ++ flat_map refusal_line kept.refused.items) }
    ensures whole { IfOk result (λ r. r.is_whole ≡ (length kept.refused.items == 0)) }
{
    let Kept { text, refused } = kept;
    Ok(Report {
        text: refusals_after(alloc, text, &refused)?,
        is_whole: refused.is_empty(),
    })
}

/// Returns the text with a line behind it for each refusal.
///
/// # Errors
///
/// `OutOfMemory` alone.
fn refusals_after(
    alloc: Global,
    text: String,
    refused: &[(usize, LineFault)],
) -> Result<String, OutOfMemory>
    ensures { IfOk result (λ s. string_bytes s
        ≡ string_bytes text ++ flat_map refusal_line refused.now) }
{
    let mut lines = text;
    for refusal in refused {
        let line = line_of(alloc, refusal)?;
        lines.push_str(&line)?;
    }
    Ok(lines)
}

/// Returns the line for a refusal.
///
/// # Errors
///
/// `OutOfMemory` alone.
fn line_of(alloc: Global, refusal: &(usize, LineFault)) -> Result<String, OutOfMemory>
    ensures { IfOk result (λ s. string_bytes s ≡ refusal_line refusal.now) }
{
    let (number, fault) = refusal;
    Ok(format!(in alloc; "line {number}: {fault}\n")?)
}

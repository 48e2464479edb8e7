//! Makes the lines of a refusal.
ghost use Rattle.asn_value_refusals.specs.Lines.{IsExplanation, IsRefusalLines};
ghost use Rattle.asn_value_refusals.specs.Lines.{path_text, place_text, reason_text, step_text};
ghost use Rattle.asn_value_refusals.specs.Visible.{on_one_line};
ghost use Rattle.std.specs.Prelude.{◌≡◌, ◌++◌, IfOk, IsCharBoundary, codes, string_bytes, take};

use crate::fault::fault_offset;
use crate::origin::{Origin, origin_of};
use crate::shown::{on_one_line, shown};
use asn_core::OutOfMemory;
use asn_dynamic::{ConvertError, Step};
use asn_lexer::place_of;
use std::alloc::Global;

/// Returns a step on the way: the name of a field or an alternative after `point`, or the place of
/// an element in brackets.
///
/// # Errors
///
/// `OutOfMemory` alone.
fn step_text(alloc: Global, point: &str, step: &Step) -> Result<String, OutOfMemory>
    ensures { IfOk result (λ s. string_bytes s ≡ step_text point.now step.now) }
{
    match step {
        Step::Field(name) => Ok(format!(in alloc; "{point}{name}")?),
        Step::Alternative(identifier) => Ok(format!(in alloc; "{point}{identifier}")?),
        Step::Element(place) => Ok(format!(in alloc; "[{place}]")?),
    }
}

/// Returns the steps on the way, as `head.list[2].item`, and a colon and a blank after them; it is
/// empty where there are none.
///
/// # Errors
///
/// `OutOfMemory` alone.
fn path_of(alloc: Global, path: &[Step]) -> Result<String, OutOfMemory>
    ensures { IfOk result (λ s. string_bytes s ≡ path_text path.now) }
{
    let Some((first, others)) = path.split_first() else {
        return Ok(String::new(alloc));
    };
    let mut text = step_text(alloc, "", first)?;
    for step in others {
        let next = step_text(alloc, ".", step)?;
        text.push_str(next.as_str())?;
    }
    text.push_str(": ")?;
    Ok(text)
}

/// Returns the way to what is refused, and the reason.
///
/// # Errors
///
/// `OutOfMemory` alone.
fn reason_of(alloc: Global, error: &ConvertError) -> Result<String, OutOfMemory>
    ensures { IfOk result (λ s. string_bytes s ≡ reason_text error.now) }
{
    match error {
        ConvertError::Read(error) => {
            let path = path_of(alloc, error.path.as_slice())?;
            let kind = &error.kind;
            Ok(format!(in alloc; "{path}{kind}")?)
        }
        ConvertError::Write(error) => {
            let kind = &error.kind;
            Ok(format!(in alloc; "{kind}")?)
        }
    }
}

/// Returns the line of a refusal for its reason, with a line feed after it.
///
/// # Errors
///
/// `OutOfMemory` alone.
fn line_of(alloc: Global, front: &str, reason: &str) -> Result<String, OutOfMemory>
    ensures { IfOk result (λ s. string_bytes s
        ≡ on_one_line (front.now ++ (codes ": " ++ reason.now)) ++ codes "\n") }
{
    let whole = format!(in alloc; "{front}: {reason}")?;
    let mut line = on_one_line(alloc, &whole)?;
    line.push('\n')?;
    Ok(line)
}

/// Returns the line and the column of the offset in the text of this origin, after the file. In a
/// stream of lines the line is that of the stream.
///
/// # Errors
///
/// `OutOfMemory` alone.
fn place_text(
    alloc: Global,
    origin: Origin<'_>,
    text: &str,
    offset: usize,
) -> Result<String, OutOfMemory>
    ensures { IfOk result (λ s. string_bytes s
        ≡ place_text origin.entry (take offset text.now)) }
{
    let place = place_of(text, offset);
    let line = match origin.line {
        Some(line) => line,
        None => place.line as u64,
    };
    let file = origin.file;
    let column = place.column;
    Ok(format!(in alloc; "{file}:{line}:{column}")?)
}

/// Returns the lines that show the place of the text, if that is asked for, and else no text.
///
/// # Errors
///
/// `OutOfMemory` alone.
fn explanation(
    alloc: Global,
    text: &str,
    offset: usize,
    explain: bool,
) -> Result<String, OutOfMemory>
    requires { IsCharBoundary text.now offset }
    ensures { IfOk result (λ s. IsExplanation explain text.now offset (string_bytes s)) }
{
    if explain {
        return shown(alloc, text, offset);
    }
    Ok(String::new(alloc))
}

/// Returns the lines for an error by which a text of this origin isn't converted, the first of
/// which has no character that controls a terminal: the file and the line after it, the way to
/// what is refused, as `head.list[2].item: `, and the reason. Where the text is
/// none of its notation, the file stands there with the line and the column, and with `explain` two
/// more lines show that place.
///
/// # Errors
///
/// `OutOfMemory` alone.
pub fn refusal_lines(
    alloc: Global,
    origin: Origin<'_>,
    text: &str,
    error: &ConvertError,
    explain: bool,
) -> Result<String, OutOfMemory>
    ensures { IfOk result (λ s.
        IsRefusalLines origin.entry error.now text.now explain (string_bytes s)) }
{
    let reason = reason_of(alloc, error)?;
    let Some(offset) = fault_offset(alloc, text, error)? else {
        let front = origin_of(alloc, origin)?;
        return line_of(alloc, &front, &reason);
    };
    let front = place_text(alloc, origin, text, offset)?;
    let more = explanation(alloc, text, offset, explain)?;
    let mut lines = line_of(alloc, &front, &reason)?;
    lines.push_str(more.as_str())?;
    Ok(lines)
}

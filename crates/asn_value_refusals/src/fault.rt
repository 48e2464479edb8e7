//! Finds the place at which a text is at fault.
ghost use Rattle.asn_value_refusals.specs.Lines.{IsPlace, is_text_at_fault};
ghost use Rattle.serde_json.specs.Read.{read as read_text};
ghost use Rattle.std.specs.Prelude.{◌≡◌, IfOk, IfSome, IsCharBoundary, is_some, not};

use asn_core::OutOfMemory;
use asn_dynamic::{ConvertError, DynError, DynKind};
use asn_fault::{AvnDecodeErrorKind, CodecDecodeError, DecodeErrorKind};
use serde_json::Value;
use serde_json::error::Category;
use std::alloc::Global;

/// Returns the offset of a line and a byte in it, both counted from 1, or that of the character of
/// which the byte is a part.
fn offset_of(text: &str, line: usize, column: usize) -> usize
    ensures { IsCharBoundary text.now result }
{
    let mut begin: usize = 0;
    for (number, each) in text.split('\n').enumerate() {
        if number + 1 == line {
            let within = column.saturating_sub(1).min(each.len());
            return text.floor_char_boundary(begin.saturating_add(within));
        }
        begin = begin.saturating_add(each.len()).saturating_add(1);
    }
    text.len()
}

/// Returns the offset at which the text is no JSON, or `None` where it is JSON.
///
/// # Errors
///
/// `OutOfMemory` alone.
fn json_offset(alloc: Global, text: &str) -> Result<Option<usize>, OutOfMemory>
    ensures found { IfOk result (λ found. is_some found ≡ not (is_some (read_text text.now))) }
    ensures boundary { IfOk result (λ found. IfSome found (IsCharBoundary text.now)) }
{
    match Value::from_str(alloc, text) {
        Ok(_value) => Ok(None),
        Err(error) => match error.classify() {
            Category::Memory => Err(OutOfMemory),
            _ => Ok(Some(offset_of(text, error.line(), error.column()))),
        },
    }
}

/// Returns the offset at which the text is at fault, or `None` where it is a text of the notation,
/// and its value is at fault.
///
/// # Errors
///
/// `OutOfMemory` alone.
pub fn fault_offset(
    alloc: Global,
    text: &str,
    error: &ConvertError,
) -> Result<Option<usize>, OutOfMemory>
    ensures found { IfOk result (λ found. is_some found ≡ is_text_at_fault text.now error.now) }
    ensures place { IfOk result (λ found. IfSome found (IsPlace error.now text.now)) }
    ensures boundary { IfOk result (λ found. IfSome found (IsCharBoundary text.now)) }
{
    let ConvertError::Read(
        DynError {
            kind: DynKind::Other(kind),
            ..
        },
    ) = error
    else {
        return Ok(None);
    };
    match kind {
        DecodeErrorKind::Parser { .. } => json_offset(alloc, text),
        DecodeErrorKind::CodecSpecific {
            inner: CodecDecodeError::Avn(AvnDecodeErrorKind::UnexpectedToken { .. }),
        } => Ok(Some(avn_places::fault_offset(alloc, text)?)),
        _ => Ok(None),
    }
}

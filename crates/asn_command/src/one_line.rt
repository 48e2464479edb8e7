//! Lays a text in value notation out on one line.
ghost use Rattle.asn_command.specs.OneLine.{HasNoFeed, IsLaidOut, behind, laid, step_of};
ghost use Rattle.asn_command.specs.declared.one_line.Within.TheVariants as within;
ghost use Rattle.std.specs.Prelude.{◌≡◌, IfOk, IfSome, option_map, vec_items};

use asn_core::OutOfMemory;
use std::alloc::Global;

/// States where a byte stands.
#[derive(Clone, Copy, PartialEq, Eq)]
enum Within {
    /// Between tokens or in one, outside of strings.
    Line,
    /// Among the blanks at the beginning of a line.
    Indentation,
    /// In a string.
    Text,
}

/// States what becomes of a byte.
#[derive(Clone, Copy)]
enum Step {
    /// It is a line feed in a string: there is no text on one line.
    Stop,
    /// It is left out.
    Skip,
    /// This byte stands there.
    Put(u8),
}

/// Finds out what becomes of a byte.
impl Within {
    /// Returns where the byte after this one stands.
    fn behind(self, byte: u8) -> Within
        ensures { result ≡ behind self byte }
    {
        match (self, byte) {
            (Within::Text, b'"') => Within::Line,
            (Within::Text, _) => Within::Text,
            (_, b'"') => Within::Text,
            (_, b'\n') => Within::Indentation,
            (Within::Indentation, b' ') => Within::Indentation,
            _ => Within::Line,
        }
    }

    /// Returns what becomes of this byte.
    fn next(self, byte: u8) -> Step
        ensures { result ≡ step_of self byte }
    {
        match (self, byte) {
            (Within::Text, b'\n') => Step::Stop,
            (_, b'\n') => Step::Put(b' '),
            (Within::Indentation, b' ') => Step::Skip,
            _ => Step::Put(byte),
        }
    }
}

/// Returns the bytes with one blank in place of each line feed and the blanks after it, or `None`
/// where a line feed stands in a string.
///
/// # Errors
///
/// `OutOfMemory` alone.
fn laid(alloc: Global, text: &[u8]) -> Result<Option<Vec<u8>>, OutOfMemory>
    ensures text { IfOk result (λ found. option_map vec_items found ≡ laid within.Line text.now) }
    ensures one { IfOk result (λ found. IfSome found (λ v. HasNoFeed v.items)) }
{
    let mut bytes = Vec::new(alloc);
    let mut place = Within::Line;
    for byte in text {
        match place.next(*byte) {
            Step::Stop => return Ok(None),
            Step::Skip => {}
            Step::Put(put) => bytes.push(put)?,
        }
        place = place.behind(*byte);
    }
    Ok(Some(bytes))
}

/// Returns the text with one blank in place of each line feed and the blanks after it, or `None`
/// where a line feed stands in a string.
///
/// # Errors
///
/// `OutOfMemory` alone.
pub fn one_line(alloc: Global, text: &str) -> Result<Option<String>, OutOfMemory>
    ensures { IfOk result (IsLaidOut text.now) }
{
    let Some(bytes) = laid(alloc, text.as_bytes())? else {
        return Ok(None);
    };
    Ok(String::from_utf8(bytes).ok())
}

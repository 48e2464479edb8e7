//! Goes over a text in value notation up to what can't stand there.
ghost use Rattle.avn_places.specs.Places.{IsFaultPlace};
ghost use Rattle.std.specs.Prelude.{IfOk};

use crate::braces::Braces;
use crate::tokens::{Run, past_run};
use crate::turn::{Expected, Then, turn};
use asn_core::OutOfMemory;
use std::alloc::Global;

/// Returns the offset at which begins what can't stand there in value notation, whatever follows:
/// a token that isn't expected, or one that has no end, or an item with a name among others without
/// one. It is the length of the text where the text ends too early, or is value notation.
///
/// # Errors
///
/// `OutOfMemory` alone.
pub fn fault_offset(alloc: Global, text: &str) -> Result<usize, OutOfMemory>
    ensures { IfOk result (IsFaultPlace text.now) }
{
    let mut opened: Vec<Braces> = Vec::new(alloc);
    let mut rest = text;
    let mut expected = Expected::Value;
    'turns: loop {
        let innermost = opened.last().copied();
        let (then, more) = turn(innermost, expected, past_run(Run::Spaces, rest));
        match then {
            Then::On(next) => expected = next,
            Then::Opens => {
                opened.push(Braces::new())?;
                expected = Expected::Item;
            }
            Then::Holds(braces, next) => {
                let _before = opened.pop();
                opened.push(braces)?;
                expected = next;
            }
            Then::Closes => {
                let _closed = opened.pop();
                expected = Expected::Behind { is_integer: false };
            }
            Then::Fault => return Ok(text.len() - more.len()),
        }
        rest = more;
    }
}

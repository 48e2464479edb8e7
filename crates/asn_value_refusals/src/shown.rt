//! Shows a text, or a place of it, to a reader at a terminal.
ghost use Rattle.asn_value_refusals.specs.Excerpts.{IsExcerpt, IsFirstLine, IsLastLine};
ghost use Rattle.asn_value_refusals.specs.Excerpts.{blanks, left_out, shown_before, shown_text};
ghost use Rattle.asn_value_refusals.specs.Visible.{on_one_line, visible};
ghost use Rattle.std.specs.Prelude.{◌≡◌, ◌++◌, IfOk, IsCharBoundary, chars, string_bytes, take};

use asn_core::OutOfMemory;
use std::alloc::Global;

/// Limits the characters of a line that are shown on either side of the place.
pub const MOST_SHOWN: usize = 38;

/// Returns what stands after the last line feed of a text.
fn last_line(text: &str) -> &str
    ensures { IsLastLine text.now result.now }
{
    match text.rsplit_once('\n') {
        Some((_lines, line)) => line,
        None => text,
    }
}

/// Returns what stands before the first line feed of a text.
fn first_line(text: &str) -> &str
    ensures { IsFirstLine text.now result.now }
{
    match text.split_once('\n') {
        Some((line, _lines)) => line,
        None => text,
    }
}

/// Returns how many characters of the text are left out so that at most `MOST_SHOWN` are shown.
fn left_out(text: &str) -> usize
    ensures { result ≡ left_out (chars text.now) }
{
    text.chars().count().saturating_sub(MOST_SHOWN)
}

/// Adds the last characters of the text as they are shown, and as many blanks to the other line.
///
/// # Errors
///
/// `OutOfMemory` alone.
fn add_before(line: &mut String, caret: &mut String, text: &str) -> Result<(), OutOfMemory>
    ensures line { IfOk result (λ _. string_bytes line.new
        ≡ string_bytes line.old ++ shown_text (shown_before (chars text.now))) }
    ensures caret { IfOk result (λ _. string_bytes caret.new
        ≡ string_bytes caret.old ++ blanks (shown_before (chars text.now))) }
{
    for character in text.chars().skip(left_out(text)) {
        line.push(visible(character))?;
        caret.push(' ')?;
    }
    Ok(())
}

/// Adds the first characters of the text as they are shown.
///
/// # Errors
///
/// `OutOfMemory` alone.
fn add_after(line: &mut String, text: &str) -> Result<(), OutOfMemory>
    ensures { IfOk result (λ _. string_bytes line.new
        ≡ string_bytes line.old ++ shown_text (take MOST_SHOWN (chars text.now))) }
{
    for character in text.chars().take(MOST_SHOWN) {
        line.push(visible(character))?;
    }
    Ok(())
}

/// Returns the line of the text around the offset, as much of it as fits a terminal, and a line
/// with a caret below the place.
///
/// # Errors
///
/// `OutOfMemory` alone.
#[tactic(auto, using(crate::proofs::Excerpts::excerpt_shown))]
pub fn shown(alloc: Global, text: &str, offset: usize) -> Result<String, OutOfMemory>
    requires { IsCharBoundary text.now offset }
    ensures { IfOk result (λ s. IsExcerpt text.now offset (string_bytes s)) }
{
    let (front, rest) = text.split_at(offset);
    let mut line = String::new(alloc);
    let mut caret = String::new(alloc);
    add_before(&mut line, &mut caret, last_line(front))?;
    add_after(&mut line, first_line(rest))?;
    Ok(format!(in alloc; "  {line}\n  {caret}^\n")?)
}

/// Returns the text with a blank in place of each character that controls a terminal, a line feed
/// among them, so that it is one line.
///
/// # Errors
///
/// `OutOfMemory` alone.
pub fn on_one_line(alloc: Global, text: &str) -> Result<String, OutOfMemory>
    ensures { IfOk result (λ s. string_bytes s ≡ on_one_line text.now) }
{
    let mut line = String::new(alloc);
    for character in text.chars() {
        line.push(visible(character))?;
    }
    Ok(line)
}

/// Returns the character, or a blank in place of one that controls a terminal.
fn visible(character: char) -> char
    ensures { result ≡ visible character }
{
    if character.is_control() {
        ' '
    } else {
        character
    }
}

//! Splits an input into its request line and its text, and a line into words. A word is a run of
//! characters other than space and tab. Nothing is copied: all results borrow from the input.
ghost use Rattle.std.specs.Io.BufRead.{strip_last};
ghost use Rattle.std.specs.Prelude.{◌≡◌, ◌≤◌, ◌<◌, ◌∷◌, [], length, MatchOption, IsCharBoundary};
ghost use Rattle.std.specs.Prelude.{IsTrue, slice_index};
ghost use Rattle.std.specs.List.{position_or_len};
ghost use Rattle.asn_convert.specs.Lines.{is_blank, request_line, text_part, words};

/// Returns the request line and the text after it. The line ends before the first line feed, less
/// one carriage return right before it; an input without a line feed is a line with no text.
pub fn split_request(input: &str) -> (&str, &str)
    ensures line { result.0.now ≡ request_line input.now }
    ensures text { result.1.now ≡ text_part input.now }
{
    match input.split_once('\n') {
        Some((line, text)) => (without_return(line), text),
        None => (input, ""),
    }
}

/// Returns the line less one carriage return at its end, where there is one.
fn without_return(line: &str) -> &str
    ensures { result.now ≡ strip_last 13 line.now }
{
    match line.strip_suffix('\r') {
        Some(front) => front,
        None => line,
    }
}

/// Returns the first word and what stands after it, or `None` where the text has no word.
pub fn next_word(text: &str) -> Option<(&str, &str)>
    ensures { MatchOption result (words text.now ≡ [])
        (λ r. words text.now ≡ r.0.now ∷ words r.1.now) }
{
    let mut rest = text;
    // A text that begins with a blank loses it, and is looked at again.
    'blanks: while !rest.is_empty() {
        let end = first_blank(rest);
        if end > 0 {
            return Some(rest.split_at(end));
        }
        // A blank is one byte long, so the rest begins at a char boundary.
        rest = &rest[1..];
    }
    None
}

/// Returns the place of the first space or tab in bytes, or the length where there is none. It is
/// a char boundary, since blanks are ASCII (`boundary`), and so is the place after a blank at the
/// front (`after`).
fn first_blank(text: &str) -> usize
    ensures value { result ≡ position_or_len is_blank text.now }
    ensures boundary { IsCharBoundary text.now result }
    ensures after { result ≡ 0 → 0 < length text.now → IsCharBoundary text.now 1 }
{
    first_blank_byte(text.as_bytes())
}

/// Returns the same of bytes, with the fact that makes the place a char boundary (`ascii`).
fn first_blank_byte(text: &[u8]) -> usize
    ensures value { result ≡ position_or_len is_blank text.now }
    ensures bound { result ≤ length text.now }
    ensures ascii { result < length text.now → slice_index text.now result < 128 }
{
    for (i, byte) in text.iter().enumerate() {
        if is_space_or_tab(*byte) {
            return i;
        }
    }
    text.len()
}

/// Returns whether the byte is a space or a tab, which separate words.
fn is_space_or_tab(byte: u8) -> bool
    ensures value { result ≡ is_blank byte }
    ensures ascii { IsTrue result → byte < 128 }
{
    byte == b' ' || byte == b'\t'
}

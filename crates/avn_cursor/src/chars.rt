//! Tests runs of characters.
ghost use Rattle.std.specs.Prelude.{◌≡◌};
ghost use Rattle.std.specs.Str.{IsAscii};
ghost use Rattle.avn_grammar.specs.Chars.{all, skip_while};
ghost use Rattle.avn_cursor.specs.Runs.{passes};

/// The characters that are read as one run.
#[derive(Clone, Copy, Drop)]
pub enum CharSet {
    /// White space between tokens.
    Blanks,
    /// ASCII digits.
    Digits,
    /// ASCII letters.
    Letters,
    /// Characters of a name after its first.
    Name,
    /// Double quotation marks.
    Quotes,
    /// Characters other than an apostrophe.
    Inside,
}

/// Returns whether the character belongs to the run.
#[inline(always)]
pub fn passes(run: CharSet, c: char) -> bool
    ensures { result ≡ passes run c }
{
    match run {
        CharSet::Blanks => c == ' ' || c == '\t' || c == '\r' || c == '\n',
        CharSet::Digits => c.is_ascii_digit(),
        CharSet::Letters => c.is_ascii_alphabetic(),
        CharSet::Name => c.is_ascii_alphanumeric() || c == '-' || c == '_',
        CharSet::Quotes => c == '"',
        CharSet::Inside => c != '\'',
    }
}

/// Returns whether all bytes of the text belong to the run.
pub fn all_pass(run: CharSet, text: &[u8]) -> bool
    ensures { result ≡ all (passes run) text.now }
{
    for &byte in text {
        if !passes(run, byte as char) {
            return false;
        }
    }
    true
}

/// Returns what follows the longest front of the text whose bytes belong to the run.
pub fn past_run(run: CharSet, text: &[u8]) -> &[u8]
    ensures { result.now ≡ skip_while (passes run) text.now }
{
    let mut place = 0;
    while place < text.len() && passes(run, text[place] as char) {
        place += 1;
    }
    &text[place..]
}

/// Returns the text that octets of ASCII are.
pub fn ascii(bytes: &[u8]) -> &str
    requires { IsAscii bytes.now }
    ensures { result.now ≡ bytes.now }
{
    match str::from_utf8(bytes) {
        Ok(text) => text,
        Err(_) => unreachable!(),
    }
}

//! Passes over the tokens of value notation.
ghost use Rattle.avn_grammar.specs.Chars.{is_digit, skip_while, starts_with};
ghost use Rattle.avn_grammar.specs.Octets.{is_hex};
ghost use Rattle.avn_places.specs.Tokens.{are_bits, are_pairs, begins_number, is_hex_or_white};
ghost use Rattle.avn_places.specs.Tokens.{number, passes, past_apostrophe, past_octets, past_sign};
ghost use Rattle.avn_places.specs.Tokens.{past_string, simple_value};
ghost use Rattle.std.specs.List.{count_by, list_all};
ghost use Rattle.std.specs.Option.{option_map};
ghost use Rattle.std.specs.Prelude.{◌≡◌, ◌<◌, chars};

/// Names a set of bytes that are read as one run.
#[derive(Clone, Copy, Drop)]
pub enum Run {
    /// Is white space between tokens.
    Spaces,
    /// Is what may stand in a name after its first letter.
    Name,
    /// Is decimal digits.
    Digits,
}

/// Returns whether the byte belongs to the run.
fn passes(run: Run, byte: u8) -> bool
    ensures { result ≡ passes run byte }
{
    match run {
        Run::Spaces => matches!(byte, b' ' | b'\t' | b'\r' | b'\n'),
        Run::Name => byte.is_ascii_alphanumeric() || byte == b'-' || byte == b'_',
        Run::Digits => byte.is_ascii_digit(),
    }
}

/// Returns what follows the longest front of the text whose bytes belong to the run.
#[tactic(auto, using(crate::proofs::Fronts::runs))]
pub fn past_run(run: Run, text: &str) -> &str
    ensures { result.now ≡ skip_while (passes run) text.now }
{
    let bytes = text.as_bytes();
    let mut place = 0;
    while place < bytes.len() && passes(run, bytes[place]) {
        place += 1;
    }
    &text[place..]
}

/// Returns what follows this ASCII character, or `None` where the text doesn't begin with it.
#[tactic(auto, using(crate::proofs::Fronts::sign_strips))]
pub fn past_sign(sign: char, text: &str) -> Option<&str>
    requires { sign < 128 }
    ensures { option_map (λ rest. rest.now) result ≡ past_sign sign text.now }
{
    text.strip_prefix(sign)
}

/// Is a value that is no braces: what follows it in the text, and whether it is an integer.
#[derive(Clone, Copy, Drop)]
pub struct Simple<'t> {
    /// States whether it is an integer.
    pub is_integer: bool,
    /// Is the text after it.
    pub rest: &'t str,
}

/// Returns whether the text begins with a digit.
fn begins_digit(text: &str) -> bool
    ensures { result ≡ starts_with is_digit text.now }
{
    matches!(text.as_bytes(), [b'0'..=b'9', ..])
}

/// Returns the number at the front of the text, or `None` where none stands there.
#[tactic(auto, using(crate::proofs::Fronts::fractions))]
fn number(text: &str) -> Option<Simple<'_>>
    ensures { option_map (λ simple. (simple.is_integer, simple.rest.now)) result
        ≡ number text.now }
{
    let digits = past_sign('-', text).unwrap_or(text);
    if !begins_digit(digits) {
        return None;
    }
    let rest = past_run(Run::Digits, digits);
    match past_sign('.', rest) {
        Some(fraction) if begins_digit(fraction) => Some(Simple {
            is_integer: false,
            rest: past_run(Run::Digits, fraction),
        }),
        _ => Some(Simple {
            is_integer: true,
            rest,
        }),
    }
}

/// Returns what follows the string whose opening quote was read, in which a quote is written twice,
/// or `None` where it has no end.
#[tactic(auto, using(crate::proofs::Fronts::strings))]
fn past_string(text: &str) -> Option<&str>
    ensures { option_map (λ rest. rest.now) result ≡ past_string text.now }
{
    let mut rest = text;
    'quotes: loop {
        let (_front, behind) = rest.split_once('"')?;
        match past_sign('"', behind) {
            Some(more) => rest = more,
            None => return Some(behind),
        }
    }
}

/// Returns whether the text is hexadecimal digits and white space.
fn are_hex_or_white(text: &str) -> bool
    ensures { result ≡ list_all is_hex_or_white (chars text.now) }
{
    text.chars()
        .all(|c| c.is_ascii_hexdigit() || c.is_whitespace())
}

/// Returns how many hexadecimal digits the text has.
fn hex_count(text: &str) -> usize
    ensures { result ≡ count_by is_hex (chars text.now) }
{
    text.chars().filter(|c| c.is_ascii_hexdigit()).count()
}

/// Returns whether the text, white space aside, is pairs of hexadecimal digits.
fn are_pairs(text: &str) -> bool
    ensures { result ≡ are_pairs (chars text.now) }
{
    are_hex_or_white(text) && hex_count(text) % 2 == 0
}

/// Returns whether the text, white space aside, is binary digits.
fn are_bits(text: &str) -> bool
    ensures { result ≡ are_bits (chars text.now) }
{
    text.chars()
        .all(|c| c == '0' || c == '1' || c.is_whitespace())
}

/// Returns what stands before the first apostrophe and what follows it, or `None` where there is
/// none.
fn past_apostrophe(text: &str) -> Option<(&str, &str)>
    ensures { option_map (λ p. (p.0.now, p.1.now)) result ≡ past_apostrophe text.now }
{
    text.split_once('\'')
}

/// Returns what follows the octets or bits whose opening apostrophe was read, or `None` where they
/// are none.
fn past_octets(text: &str) -> Option<&str>
    ensures { option_map (λ rest. rest.now) result ≡ past_octets text.now }
{
    let (digits, behind) = past_apostrophe(text)?;
    if let Some(rest) = past_sign('H', behind) {
        return if are_pairs(digits) { Some(rest) } else { None };
    }
    let rest = past_sign('B', behind)?;
    if are_bits(digits) { Some(rest) } else { None }
}

/// Returns the number, string, octets or bits at the front of the text, or `None` where none of
/// these stands there.
pub fn simple_value(text: &str) -> Option<Simple<'_>>
    ensures { option_map (λ simple. (simple.is_integer, simple.rest.now)) result
        ≡ simple_value text.now }
{
    let rest = if let Some(characters) = past_sign('"', text) {
        past_string(characters)?
    } else if let Some(digits) = past_sign('\'', text) {
        past_octets(digits)?
    } else {
        return number(text);
    };
    Some(Simple {
        is_integer: false,
        rest,
    })
}

/// Returns whether the text begins with what a number begins with.
pub fn begins_number(text: &str) -> bool
    ensures { result ≡ begins_number text.now }
{
    matches!(text.as_bytes(), [b'0'..=b'9' | b'-', ..])
}

//! Passes over runs of bytes.
ghost use Rattle.asn_lexer.specs.Blanks.{past_spaced};
ghost use Rattle.asn_lexer.specs.Runs.{passes};
ghost use Rattle.avn_grammar.specs.Chars.{skip_while};
ghost use Rattle.std.specs.Prelude.{◌≡◌};

/// Is a no-break space, which is white space of two bytes (X.680, section 12.1.6).
pub const NO_BREAK_SPACE: [u8; 2] = [0xC2, 0xA0];

/// Names a set of bytes that are read as one run.
#[derive(Clone, Copy, Drop)]
pub enum Run {
    /// Is white space of one byte.
    Whites,
    /// Is decimal digits.
    Digits,
    /// Is hexadecimal digits.
    HexDigits,
    /// Is binary digits and white space of one byte.
    Bits,
    /// Is hexadecimal digits, whose letters are capitals, and white space of one byte.
    Octets,
}

/// Returns whether the byte belongs to the run.
pub fn passes(run: Run, byte: u8) -> bool
    ensures { result ≡ passes run byte }
{
    match run {
        Run::Whites => matches!(byte, 9..=13 | b' '),
        Run::Digits => byte.is_ascii_digit(),
        Run::HexDigits => byte.is_ascii_hexdigit(),
        Run::Bits => matches!(byte, b'0' | b'1' | 9..=13 | b' '),
        Run::Octets => matches!(byte, b'0'..=b'9' | b'A'..=b'F' | 9..=13 | b' '),
    }
}

/// Returns what follows the longest front of the text whose bytes belong to the run.
pub fn past_run(run: Run, text: &[u8]) -> &[u8]
    ensures { result.now ≡ skip_while (passes run) text.now }
{
    let mut place = 0;
    while place < text.len() && passes(run, text[place]) {
        place += 1;
    }
    &text[place..]
}

/// Returns what follows the longest front of the text that is no-break spaces and bytes that belong
/// to the run.
#[tactic(auto, using(crate::proofs::Spaces::spaced_steps))]
pub fn past_spaced(run: Run, text: &[u8]) -> &[u8]
    ensures { result.now ≡ past_spaced (passes run) text.now }
{
    let mut rest = text;
    'chars: loop {
        if let Some(after) = rest.strip_prefix(NO_BREAK_SPACE.as_slice()) {
            rest = after;
        } else {
            match rest {
                [first, after @ ..] if passes(run, *first) => rest = after,
                _ => return rest,
            }
        }
    }
}

//! Defines the character sets of the restricted character string types, each as a type without
//! values to hold, which a string type has as its parameter.
ghost use Rattle.asn_strings.specs.Alphabets.{HasAllOrNonePastAscii, all_within, is_any};
ghost use Rattle.asn_strings.specs.Alphabets.{is_graphic, is_ia5, is_numeric, is_printable};
ghost use Rattle.asn_strings.specs.Alphabets.{is_visible, place_outside};
ghost use Rattle.asn_strings.specs.PastAscii.{any_past_ascii, graphic_past_ascii, ia5_past_ascii};
ghost use Rattle.asn_strings.specs.PastAscii.{numeric_past_ascii, printable_past_ascii};
ghost use Rattle.asn_strings.specs.PastAscii.{visible_past_ascii};
ghost use Rattle.std.specs.Prelude.{◌≡◌, ℕ, Bool, IfNone, IsTrue, chars};

/// States which characters a restricted character string type has.
pub trait CharacterSet: Drop {
    // The alphabet, as a test of code points or of octets.
    ghost alphabet: { ℕ → Bool };

    /// Returns whether the character is in the alphabet.
    fn contains(character: char) -> bool
        ensures { result ≡ alphabet character };

    // So the octets of a text tell of each character past ASCII whether it is in the alphabet.
    ghost alike_past_ascii: { HasAllOrNonePastAscii Self.alphabet };
}

/// Returns whether each octet is in the alphabet of `C`, taken as the character of its number.
pub fn are_within<C: CharacterSet>(octets: &[u8]) -> bool
    ensures { result ≡ all_within C.alphabet octets.now }
{
    // No test ends the walk, so a processor makes many of them at once.
    octets.iter().fold(
        true,
        |within, octet| within & C::contains(char::from(*octet)),
    )
}

/// Returns the place of the first character outside the alphabet of `C`, counted in characters,
/// or `None` where there is none.
pub fn first_outside<C: CharacterSet>(text: &str) -> Option<usize>
    ensures place { result ≡ place_outside C.alphabet (chars text.now) }
    ensures within { IfNone result (IsTrue (all_within C.alphabet (chars text.now))) }
{
    // The characters are looked at only where an octet may be one of a character outside.
    if are_within::<C>(text.as_bytes()) {
        return None;
    }
    text.chars().position(|character| !C::contains(character))
}

/// Returns whether each character is in the alphabet of `C`.
pub fn is_within<C: CharacterSet>(text: &str) -> bool
    ensures { result ≡ all_within C.alphabet (chars text.now) }
{
    text.chars().all(|character| C::contains(character))
}

/// Is the set of NumericString: the digits and space.
#[derive(Clone, Copy)]
pub struct Numeric;

/// Tests by a pattern.
impl CharacterSet for Numeric {
    ghost alphabet = { is_numeric };

    ghost alike_past_ascii = { numeric_past_ascii };

    fn contains(character: char) -> bool {
        matches!(character, '0'..='9' | ' ')
    }
}

/// Is the set of PrintableString: the Latin letters, the digits, space and the signs
/// `'()+,-./:=?`.
#[derive(Clone, Copy)]
pub struct Printable;

/// Tests by a pattern. `*` and `@` are not in the set.
impl CharacterSet for Printable {
    ghost alphabet = { is_printable };

    ghost alike_past_ascii = { printable_past_ascii };

    // `+,-./`, the digits and `:` are one range, and `'()` another.
    fn contains(character: char) -> bool {
        matches!(character, 'A'..='Z' | 'a'..='z' | '+'..=':' | '\''..=')' | ' ' | '=' | '?')
    }
}

/// Is the set of VisibleString: the printing characters of ASCII, and space.
#[derive(Clone, Copy)]
pub struct Visible;

/// Tests by the range from space to `~`.
impl CharacterSet for Visible {
    ghost alphabet = { is_visible };

    ghost alike_past_ascii = { visible_past_ascii };

    fn contains(character: char) -> bool {
        matches!(character, ' '..='~')
    }
}

/// Is the set of IA5String: the characters of ASCII, control characters included.
#[derive(Clone, Copy)]
pub struct Ia5;

/// Tests by the first 128 code points.
impl CharacterSet for Ia5 {
    ghost alphabet = { is_ia5 };

    ghost alike_past_ascii = { ia5_past_ascii };

    fn contains(character: char) -> bool {
        character.is_ascii()
    }
}

/// Is the set of GraphicString: all but the control characters of ASCII.
#[derive(Clone, Copy)]
pub struct Graphic;

/// Tests by the code points that it lacks.
impl CharacterSet for Graphic {
    ghost alphabet = { is_graphic };

    ghost alike_past_ascii = { graphic_past_ascii };

    fn contains(character: char) -> bool {
        !matches!(character, '\0'..='\x1F' | '\x7F')
    }
}

/// Is the set of UniversalString: every character.
#[derive(Clone, Copy)]
pub struct Universal;

/// Has every character.
impl CharacterSet for Universal {
    ghost alphabet = { is_any };

    ghost alike_past_ascii = { any_past_ascii };

    fn contains(_character: char) -> bool {
        true
    }
}

/// Is the set of GeneralString: every character or octet.
#[derive(Clone, Copy)]
pub struct General;

/// Has every character.
impl CharacterSet for General {
    ghost alphabet = { is_any };

    ghost alike_past_ascii = { any_past_ascii };

    fn contains(_character: char) -> bool {
        true
    }
}

/// Is the set of TeletexString: every octet. Its characters have no code points of their own
/// here.
#[derive(Clone, Copy)]
pub struct Teletex;

/// Has every octet, taken as the character of its number.
impl CharacterSet for Teletex {
    ghost alphabet = { is_any };

    ghost alike_past_ascii = { any_past_ascii };

    fn contains(_character: char) -> bool {
        true
    }
}

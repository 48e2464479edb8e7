//! Classes the characters of the notation. A reader needs no more than the class of the next
//! character to decide what may stand there.
ghost use Rattle.std.specs.Prelude.{◌≡◌};
ghost use Rattle.avn_grammar.specs.Chars.{class_of_char};

/// Classes what a text begins with.
#[derive(Clone, Copy, Drop, PartialEq, Eq)]
pub enum CharClass {
    /// The text is empty.
    AtEnd,
    /// A space, a tab, a carriage return or a line feed begins it.
    Space,
    /// An ASCII letter begins it: an identifier, a field's name or a keyword.
    Letter,
    /// An ASCII digit begins it: a number.
    Digit,
    /// A `-` begins it: a number below 0, where a digit follows.
    Minus,
    /// A double quotation mark begins it: a character string.
    Quote,
    /// An apostrophe begins it: octets or bits.
    Apostrophe,
    /// A `{` begins it: fields or a list.
    OpenBrace,
    /// A `}` begins it: the end of fields or of a list.
    CloseBrace,
    /// A `,` begins it: another field or item.
    Comma,
    /// A `:` begins it: the payload of a CHOICE, after its identifier.
    Colon,
    /// A `_` begins it, which may stand in a name after its first character.
    Underscore,
    /// Any other character begins it, which begins no token.
    Other,
}

/// Returns the class of a text whose first character this is. It is never `AtEnd`.
#[tactic(auto, unfolding(crate::specs::Chars::class_of_char))]
#[inline(always)]
pub fn class_of_char(c: char) -> CharClass
    ensures { result ≡ class_of_char c }
{
    match c {
        ' ' | '\t' | '\r' | '\n' => CharClass::Space,
        'A'..='Z' | 'a'..='z' => CharClass::Letter,
        '0'..='9' => CharClass::Digit,
        '-' => CharClass::Minus,
        '"' => CharClass::Quote,
        '\'' => CharClass::Apostrophe,
        '{' => CharClass::OpenBrace,
        '}' => CharClass::CloseBrace,
        ',' => CharClass::Comma,
        ':' => CharClass::Colon,
        '_' => CharClass::Underscore,
        _ => CharClass::Other,
    }
}

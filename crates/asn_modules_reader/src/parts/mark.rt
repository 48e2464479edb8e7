//! Takes single tokens.
ghost use Rattle.asn_modules_grammar.specs.headers.Fronts.{first_is};
ghost use Rattle.asn_modules_grammar.specs.notation.Kinds.{is_component_word, is_small, token_at};
ghost use Rattle.asn_modules_reader.specs.parts.Marks.{passes};
ghost use Rattle.std.specs.Prelude.{◌≡◌, ◌∷◌, ◌<◌, [], MatchOption, None, false, length, true};

use asn_lexer::{Initial, Keyword, Kind, Token};

/// Names the tokens of which one may stand at a place.
#[derive(Clone, Copy, Drop)]
pub enum Mark {
    /// Is a word, reserved or not.
    Word,
    /// Is a word that names a component: each but `COMPONENTS`.
    ComponentWord,
    /// Is a name.
    Name,
    /// Is a number.
    Number,
    /// Is a number or a name.
    NumberOrName,
    /// Is `(`.
    OpenParen,
    /// Is `)`.
    CloseParen,
    /// Is `[`.
    OpenBracket,
    /// Is `]`.
    CloseBracket,
    /// Is `:`.
    Colon,
    /// Is `.`.
    Point,
    /// Is `..`.
    Range,
    /// Is `SIZE`.
    Size,
    /// Is `OF`.
    Of,
    /// Is `BY`.
    By,
    /// Is `DEFINED`.
    Defined,
    /// Is `STRING`.
    String,
    /// Is `IDENTIFIER`.
    Identifier,
    /// Is `PDV`.
    Pdv,
    /// Is a name or `TYPE-IDENTIFIER`.
    ClassWord,
    /// Is `{`.
    OpenBrace,
    /// Is `}`.
    CloseBrace,
    /// Is `::=`.
    Assignment,
    /// Is `&`.
    Ampersand,
    /// Is `WITH`.
    With,
    /// Is `SYNTAX`.
    Syntax,
    /// Is `BEGIN`.
    Begin,
}

/// Returns whether a token of the kind is a name that begins with a small letter.
pub fn is_small(kind: Kind) -> bool
    ensures { result ≡ is_small kind }
{
    matches!(kind, Kind::Name(Initial::Small))
}

/// Returns whether a token of the kind is a word that names a component.
fn is_component_word(kind: Kind) -> bool
    ensures { result ≡ is_component_word kind }
{
    match kind {
        Kind::Reserved(Keyword::Components) => false,
        Kind::Name(_) | Kind::Reserved(_) => true,
        _ => false,
    }
}

/// Returns whether a token of the kind is one of these.
fn passes(mark: Mark, kind: Kind) -> bool
    ensures { result ≡ passes mark kind }
{
    match mark {
        Mark::Word => matches!(kind, Kind::Name(_) | Kind::Reserved(_)),
        Mark::ComponentWord => is_component_word(kind),
        Mark::Name => matches!(kind, Kind::Name(_)),
        Mark::Number => matches!(kind, Kind::Number),
        Mark::NumberOrName => matches!(kind, Kind::Number | Kind::Name(_)),
        Mark::OpenParen => matches!(kind, Kind::OpenParen),
        Mark::CloseParen => matches!(kind, Kind::CloseParen),
        Mark::OpenBracket => matches!(kind, Kind::OpenBracket),
        Mark::CloseBracket => matches!(kind, Kind::CloseBracket),
        Mark::Colon => matches!(kind, Kind::Colon),
        Mark::Point => matches!(kind, Kind::Point),
        Mark::Range => matches!(kind, Kind::Range),
        Mark::Size => matches!(kind, Kind::Reserved(Keyword::Size)),
        Mark::Of => matches!(kind, Kind::Reserved(Keyword::Of)),
        Mark::By => matches!(kind, Kind::Reserved(Keyword::By)),
        Mark::Defined => matches!(kind, Kind::Reserved(Keyword::Defined)),
        Mark::String => matches!(kind, Kind::Reserved(Keyword::String)),
        Mark::Identifier => matches!(kind, Kind::Reserved(Keyword::Identifier)),
        Mark::Pdv => matches!(kind, Kind::Reserved(Keyword::Pdv)),
        Mark::ClassWord => {
            matches!(
                kind,
                Kind::Name(_) | Kind::Reserved(Keyword::TypeIdentifier)
            )
        }
        Mark::OpenBrace => matches!(kind, Kind::OpenBrace),
        Mark::CloseBrace => matches!(kind, Kind::CloseBrace),
        Mark::Assignment => matches!(kind, Kind::Assignment),
        Mark::Ampersand => matches!(kind, Kind::Ampersand),
        Mark::With => matches!(kind, Kind::Reserved(Keyword::With)),
        Mark::Syntax => matches!(kind, Kind::Reserved(Keyword::Syntax)),
        Mark::Begin => matches!(kind, Kind::Reserved(Keyword::Begin)),
    }
}

/// Returns the first token where it is one of these, and what follows it.
pub fn take(mark: Mark, tokens: &[Token]) -> Option<(Token, &[Token])>
    ensures { MatchOption result
        ((first_is (passes mark) tokens.now ≡ false) × (token_at (passes mark) tokens.now ≡ None))
        (λ found. (tokens.now ≡ found.0 ∷ found.1.now) × (passes mark found.0.kind ≡ true)
        × (length found.1.now < length tokens.now)) }
{
    match tokens {
        [first, rest @ ..] => {
            if passes(mark, first.kind) {
                Some((*first, rest))
            } else {
                None
            }
        }
        [] => None,
    }
}

/// Returns the first token, and what follows it.
pub(crate) fn take_first(tokens: &[Token]) -> Option<(Token, &[Token])>
    ensures { MatchOption result (tokens.now ≡ []) (λ found.
        (tokens.now ≡ found.0 ∷ found.1.now) × (length found.1.now < length tokens.now)) }
{
    match tokens {
        [first, rest @ ..] => Some((*first, rest)),
        [] => None,
    }
}

//! Defines why tokens are not read.
ghost use Rattle.asn_modules_grammar.specs.headers.Fronts.{first_of};
ghost use Rattle.asn_modules_grammar.specs.declared.headers.fault.SyntaxFault.TheVariants.{Unexpected};
ghost use Rattle.std.specs.Prelude.{◌≡◌};

use asn_lexer::Token;
use std::alloc::{AllocError, AllocFailed};

/// States what may stand at a place.
#[derive(Clone, Copy, Drop, PartialEq, Eq)]
pub enum Expected {
    /// A name.
    Name,
    /// The brace or parenthesis that closes a group.
    Closing,
    /// `DEFINITIONS`.
    Definitions,
    /// `TAGS`.
    Tags,
    /// `IMPLIED`.
    Implied,
    /// `::=`.
    Assignment,
    /// `BEGIN`.
    Begin,
    /// `,` or `;`.
    CommaOrSemicolon,
    /// `,` or `FROM`.
    CommaOrFrom,
    /// `SUCCESSORS` or `DESCENDANTS`.
    Selection,
    /// A number.
    Number,
    /// A number or a name.
    NumberOrName,
    /// A word.
    Word,
    /// A word or `...`.
    Item,
    /// `(`.
    OpenParen,
    /// `)`.
    CloseParen,
    /// `]`.
    CloseBracket,
    /// `{`.
    OpenBrace,
    /// `,` or `}`.
    CommaOrBrace,
    /// `,` or `]]`.
    CommaOrVersion,
    /// A component or an alternative.
    Component,
    /// `{`, `OF`, or a size before `OF`.
    BraceOrOf,
    /// `OF`.
    Of,
    /// `STRING`.
    String,
    /// `IDENTIFIER`.
    Identifier,
    /// `PDV`.
    Pdv,
    /// `BY`.
    By,
    /// `SYNTAX`.
    Syntax,
    /// A type.
    Type,
    /// A type at a level that types may stand at.
    HigherType,
    /// A value.
    Value,
    /// `END`.
    End,
    /// A name or `END`.
    NameOrEnd,
    /// A name or the end of the text.
    NameOrNothing,
}

/// States why tokens are not read.
#[derive(Clone, Copy, Drop, PartialEq, Eq)]
pub enum SyntaxFault {
    /// This token fits nothing that may stand there; `None` is the end of the text.
    Unexpected {
        /// Is the token.
        met: Option<Token>,
        /// Is what may stand there.
        expected: Expected,
    },
    /// Memory ran out.
    OutOfMemory,
}

impl From<AllocError> for SyntaxFault {
    ghost use Rattle.asn_modules_grammar.specs.declared.headers.fault.SyntaxFault.TheVariants.{OutOfMemory};
    ghost use Rattle.std.specs.Prelude.{◌≡◌};

    ghost from_gives = { λ _ e. e ≡ OutOfMemory };

    fn from(_refused: AllocError) -> SyntaxFault {
        SyntaxFault::OutOfMemory
    }
}

impl<T: Drop> From<AllocFailed<T>> for SyntaxFault {
    ghost use Rattle.asn_modules_grammar.specs.declared.headers.fault.SyntaxFault.TheVariants.{OutOfMemory};
    ghost use Rattle.std.specs.Prelude.{◌≡◌};

    ghost from_gives = { λ _ e. e ≡ OutOfMemory };

    fn from(_refused: AllocFailed<T>) -> SyntaxFault {
        SyntaxFault::OutOfMemory
    }
}

/// Returns the fault of what stands first in place of what is expected.
pub fn unexpected(tokens: &[Token], expected: Expected) -> SyntaxFault
    ensures { result ≡ Unexpected (first_of tokens.now) expected }
{
    let met = match tokens {
        [first, ..] => Some(*first),
        [] => None,
    };
    SyntaxFault::Unexpected { met, expected }
}

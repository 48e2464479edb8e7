//! Splits a text into its tokens.
ghost use Rattle.asn_lexer.specs.Tokens.{HasTokens, StopsAt};
ghost use Rattle.std.specs.Prelude.{◌≡◌, ℕ, Err, IfOk};

use crate::piece::{Piece, piece_at};
use crate::token::Token;
use std::alloc::{AllocFailed, Global};

/// States why a text is not split.
#[derive(Clone, Copy, Debug, Drop, PartialEq, Eq)]
pub enum LexFault {
    /// At this place begins what is no token, no white space and no comment, in bytes from the
    /// beginning of the text: a comment, a string or digits that have no end, or a character that
    /// begins no token.
    NoToken(usize),
    /// Memory ran out.
    OutOfMemory,
}

impl<T: Drop> From<AllocFailed<T>> for LexFault {
    ghost use Rattle.asn_lexer.specs.declared.split.LexFault.TheVariants.{OutOfMemory};
    ghost use Rattle.std.specs.Prelude.{◌≡◌};

    ghost from_gives = { λ _ e. e ≡ OutOfMemory };

    fn from(_refused: AllocFailed<T>) -> LexFault {
        LexFault::OutOfMemory
    }
}

/// Returns the tokens of the text, in order.
///
/// # Errors
///
/// `NoToken` where the text has other parts than tokens, white space and comments, with the place
/// of the first of them, and `OutOfMemory`.
pub fn tokens(alloc: Global, text: &str) -> Result<Vec<Token>, LexFault>
    ensures ok { IfOk result (λ tokens. HasTokens text.now tokens.items) }
    ensures none { (place : ℕ) → result ≡ Err (LexFault.NoToken place) → StopsAt text.now place }
{
    let total = text.len();
    let mut rest = text.as_bytes();
    let mut tokens = Vec::new(alloc);
    while !rest.is_empty() {
        let Some((piece, after)) = piece_at(rest) else {
            return Err(LexFault::NoToken(total - rest.len()));
        };
        if let Piece::Token(kind) = piece {
            tokens.push(Token {
                kind,
                start: total - rest.len(),
                end: total - after.len(),
            })?;
        }
        rest = after;
    }
    Ok(tokens)
}

//! Takes tokens from a text.
ghost use Rattle.asn_module_reader.specs.TokenView.{token_view};
ghost use Rattle.asn_notation.specs.Tokens.{IsToken, begins, first_token, keyword_at, past_token};
ghost use Rattle.asn_notation.specs.Tokens as grammar;
ghost use Rattle.std.specs.Prelude.{◌≡◌, ◌<◌, ◌==◌, [], ◌∷◌, IfOk, Some, false, true, length};
ghost use Rattle.avn_grammar.specs.Chars.{starts_with, tail};

use asn_core::OutOfMemory;
use asn_notation::Keyword;
use avn_cursor::{CharSet, Cursor};
use avn_grammar::chars::CharClass;
use std::alloc::Global;
use std::marker::Model;

/// Holds a token, or states what stands in place of one.
#[derive(Drop)]
pub enum Token {
    /// Is a word.
    Word(String),
    /// Is `::=`.
    Assignment,
    /// Is `{`.
    OpenBrace,
    /// Is `}`.
    CloseBrace,
    /// Is `,`.
    Comma,
    /// Is `...`.
    Ellipsis,
    /// The text ends.
    End,
    /// What stands here begins no token.
    Unknown,
}

/// Takes the next character. Returns whether it is this sign.
fn takes(cursor: &mut Cursor<'_>, sign: char) -> bool
    requires { cursor.old.ahead ≡ cursor.old.rest }
    ensures together { cursor.new.ahead ≡ cursor.new.rest }
    ensures moves { cursor.new.rest ≡ tail cursor.old.rest }
    ensures found { result ≡ starts_with (λ c. c == sign) cursor.old.rest }
{
    match cursor.take() {
        Some(c) => c == sign,
        None => false,
    }
}

/// Takes the next three characters, as far as they are these signs. Returns whether they are.
fn takes_all(cursor: &mut Cursor<'_>, first: char, second: char, third: char) -> bool
    requires { cursor.old.ahead ≡ cursor.old.rest }
    ensures moves { result ≡ true → cursor.new.rest ≡ tail (tail (tail cursor.old.rest)) }
    ensures found { result ≡ begins (first ∷ second ∷ third ∷ []) cursor.old.rest }
{
    takes(cursor, first) && takes(cursor, second) && takes(cursor, third)
}

/// Takes the next token, past white space. Where there is none, what is left is unspecified.
///
/// # Errors
///
/// `OutOfMemory` alone.
pub fn take_token(alloc: Global, cursor: &mut Cursor<'_>) -> Result<Token, OutOfMemory>
    ensures found { IfOk result (λ t. token_view t ≡ first_token cursor.old.rest) }
    ensures moves { IfOk result (λ t. IsToken (token_view t)
        → cursor.new.rest ≡ past_token cursor.old.rest) }
    ensures shorter { IfOk result (λ t. IsToken (token_view t)
        → length cursor.new.rest < length cursor.old.rest) }
{
    cursor.skip();
    match cursor.class_of_next() {
        CharClass::AtEnd => Ok(Token::End),
        CharClass::Letter => {
            let mut word = String::new(alloc);
            cursor.take_run(CharSet::Name, &mut word)?;
            Ok(Token::Word(word))
        }
        CharClass::OpenBrace => {
            let _brace = cursor.take();
            Ok(Token::OpenBrace)
        }
        CharClass::CloseBrace => {
            let _brace = cursor.take();
            Ok(Token::CloseBrace)
        }
        CharClass::Comma => {
            let _comma = cursor.take();
            Ok(Token::Comma)
        }
        CharClass::Colon => {
            if takes_all(cursor, ':', ':', '=') {
                Ok(Token::Assignment)
            } else {
                Ok(Token::Unknown)
            }
        }
        CharClass::Other => {
            if takes_all(cursor, '.', '.', '.') {
                Ok(Token::Ellipsis)
            } else {
                Ok(Token::Unknown)
            }
        }
        _ => Ok(Token::Unknown),
    }
}

/// Takes a closing brace, if one is next, past white space. Returns whether it did; else the cursor
/// stays.
pub fn take_closing_brace(cursor: &mut Cursor<'_>) -> bool
    ensures yes { result ≡ true → first_token cursor.old.rest ≡ grammar.Token.close_brace }
    ensures moves { result ≡ true → cursor.new.rest ≡ past_token cursor.old.rest }
    ensures shorter { result ≡ true → length cursor.new.rest < length cursor.old.rest }
    ensures no { result ≡ false → first_token cursor.old.rest ≡ grammar.Token.close_brace → ⊥ }
    ensures stays { result ≡ false → cursor.new.rest ≡ cursor.old.rest }
{
    match cursor.class_after_blanks() {
        CharClass::CloseBrace => {
            cursor.skip();
            let _brace = cursor.take();
            true
        }
        _ => false,
    }
}

/// Takes the next token. Returns whether it is this reserved word.
///
/// # Errors
///
/// `OutOfMemory` alone.
pub fn takes_keyword(
    alloc: Global,
    cursor: &mut Cursor<'_>,
    keyword: Keyword,
) -> Result<bool, OutOfMemory>
    ensures yes { result ≡ Ok true → keyword_at cursor.old.rest ≡ Some keyword }
    ensures moves { result ≡ Ok true → cursor.new.rest ≡ past_token cursor.old.rest }
    ensures shorter { result ≡ Ok true → length cursor.new.rest < length cursor.old.rest }
    ensures no { result ≡ Ok false → keyword_at cursor.old.rest ≡ Some keyword → ⊥ }
{
    match take_token(alloc, cursor)? {
        Token::Word(word) => Ok(Keyword::named(&word) == Some(keyword)),
        _ => Ok(false),
    }
}

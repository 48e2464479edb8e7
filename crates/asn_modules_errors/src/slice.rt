//! Returns the texts of tokens.
ghost use Rattle.asn_modules_errors.specs.Slices.{text_of};
ghost use Rattle.std.specs.Prelude.{◌≡◌, IfOk, drop, string_bytes, take};
ghost use Rattle.std.specs.Str.{IsUtf8};

use asn_lexer::Token;
use std::alloc::{AllocError, Global};

/// Returns what follows so many bytes.
pub(crate) fn behind(bytes: &[u8], count: usize) -> &[u8]
    ensures { result.now ≡ drop count bytes.now }
{
    if count < bytes.len() {
        &bytes[count..]
    } else {
        &[]
    }
}

/// Returns the first bytes, so many or all that there are.
fn front(bytes: &[u8], count: usize) -> &[u8]
    ensures { result.now ≡ take count bytes.now }
{
    if count < bytes.len() {
        &bytes[..count]
    } else {
        bytes
    }
}

/// Returns the bytes of the token in its text, without those that the text doesn't have.
pub fn text_of(text: &str, token: Token) -> &[u8]
    ensures { result.now ≡ text_of text.now token }
{
    let rest = behind(text.as_bytes(), token.start);
    front(rest, token.end.saturating_sub(token.start))
}

/// Returns the text of the token as a string. What isn't UTF-8 is shown as nothing; each token of a
/// text is.
///
/// # Errors
///
/// Where memory runs out.
pub fn shown(alloc: Global, text: &str, token: Token) -> Result<String, AllocError>
    ensures { IfOk result (λ s. IsUtf8 (text_of text.now token)
        → string_bytes s ≡ text_of text.now token) }
{
    match str::from_utf8(text_of(text, token)) {
        Ok(shown) => String::from_str(alloc, shown),
        Err(_fault) => Ok(String::new(alloc)),
    }
}

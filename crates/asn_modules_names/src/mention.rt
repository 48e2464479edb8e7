//! Defines names as they stand in texts.
ghost use Rattle.asn_modules_names.specs.Mentions.{mention_in, mention_view, source_view};
ghost use Rattle.std.specs.Prelude.{◌≡◌};

use asn_lexer::Token;
use asn_modules_reader::text::Source;

/// Is a name that stands in a text.
#[derive(Clone, Copy, Drop)]
pub struct Mention<'t> {
    /// Is the name of the text, as of its file.
    pub file: &'t str,
    /// Is the text.
    pub text: &'t str,
    /// Is the name.
    pub token: Token,
}

/// Returns the name that the token is in its text.
pub fn mention_of<'t>(source: &Source<'t>, token: Token) -> Mention<'t>
    ensures { mention_view result ≡ mention_in (source_view source.now) token }
{
    Mention {
        file: source.file,
        text: source.text,
        token,
    }
}

//! Reads tags.
ghost use Rattle.asn_modules_grammar.specs.headers.Fronts.{Answers};
ghost use Rattle.asn_modules_grammar.specs.notation.Kinds.{first_kind};
ghost use Rattle.asn_modules_grammar.specs.notation.Tags.{TagsParse, class_by, mode_by, numbered_at};
ghost use Rattle.asn_modules_reader.specs.parts.Reading.{Reads};
ghost use Rattle.std.specs.Prelude.{◌≡◌, ◌≤◌, IfOk, length};

use crate::parts::mark::{Mark, take};
use asn_core::Class;
use asn_lexer::{Keyword, Kind, Token};
use asn_modules_grammar::headers::{Expected, SyntaxFault, unexpected};
use asn_modules_grammar::notation::{TagMode, TagNotation};
use std::alloc::Global;

/// Returns the class that the first token states, or that of the context, and what follows it.
fn read_class(tokens: &[Token]) -> (Class, &[Token])
    ensures found { class_by (first_kind tokens.now) tokens.now ≡ (result.0, result.1.now) }
    ensures shorter { length result.1.now ≤ length tokens.now }
{
    let [first, rest @ ..] = tokens else {
        return (Class::Context, tokens);
    };
    match first.kind {
        Kind::Reserved(Keyword::Universal) => (Class::Universal, rest),
        Kind::Reserved(Keyword::Application) => (Class::Application, rest),
        Kind::Reserved(Keyword::Private) => (Class::Private, rest),
        _ => (Class::Context, tokens),
    }
}

/// Returns how the first token states that a tag is encoded, and what follows it.
fn read_mode(tokens: &[Token]) -> (Option<TagMode>, &[Token])
    ensures found { mode_by (first_kind tokens.now) tokens.now ≡ (result.0, result.1.now) }
    ensures shorter { length result.1.now ≤ length tokens.now }
{
    let [first, rest @ ..] = tokens else {
        return (None, tokens);
    };
    match first.kind {
        Kind::Reserved(Keyword::Implicit) => (Some(TagMode::Implicit), rest),
        Kind::Reserved(Keyword::Explicit) => (Some(TagMode::Explicit), rest),
        _ => (None, tokens),
    }
}

/// Returns the tag whose bracket was read, and what follows it.
///
/// # Errors
///
/// `Unexpected` where no number, name or closing bracket stands where one has to.
fn read_tag(tokens: &[Token]) -> Result<(TagNotation, &[Token]), SyntaxFault>
    ensures found { Answers (λ tag. tag)
        (numbered_at (class_by (first_kind tokens.now) tokens.now)) result }
    ensures shorter { IfOk result (λ found. length found.1.now ≤ length tokens.now) }
{
    let (class, behind) = read_class(tokens);
    let Some((number, closing)) = take(Mark::NumberOrName, behind) else {
        return Err(unexpected(behind, Expected::NumberOrName));
    };
    let Some((_, after)) = take(Mark::CloseBracket, closing) else {
        return Err(unexpected(closing, Expected::CloseBracket));
    };
    let (mode, rest) = read_mode(after);
    let tag = TagNotation {
        class,
        number,
        mode,
    };
    Ok((tag, rest))
}

/// Returns the tags that stand here, of which there may be none, and what follows them.
///
/// # Errors
///
/// `Unexpected` where they aren't in the grammar, and `OutOfMemory`.
pub fn read_tags(
    alloc: Global,
    tokens: &[Token],
) -> Result<(Vec<TagNotation>, &[Token]), SyntaxFault>
    ensures found { Reads (λ tags. tags.items) (TagsParse tokens.now) result }
    ensures shorter { IfOk result (λ found. length found.1.now ≤ length tokens.now) }
{
    let mut tags = Vec::new(alloc);
    let mut rest = tokens;
    'tags: loop {
        let Some((_open, inner)) = take(Mark::OpenBracket, rest) else {
            return Ok((tags, rest));
        };
        let (tag, after) = read_tag(inner)?;
        tags.push(tag)?;
        rest = after;
    }
}

//! Reads the words that begin types.
ghost use Rattle.asn_modules_grammar.specs.headers.Fronts.{Answers};
ghost use Rattle.asn_modules_grammar.specs.notation.Classes.{past_class, past_fields, past_instance};
ghost use Rattle.asn_modules_grammar.specs.notation.Starts.{any_at, begins_type, is_opening, leaf_at};
ghost use Rattle.asn_modules_grammar.specs.notation.Starts.{named_at, named_class_at, opened_at, opens_type};
ghost use Rattle.asn_modules_grammar.specs.notation.Starts.{names_module_value};
ghost use Rattle.asn_modules_grammar.specs.notation.Starts.{reference_at, start_at};
ghost use Rattle.asn_modules_grammar.specs.declared.notation.leaf.Closed.TheVariants as closed;
ghost use Rattle.asn_modules_grammar.specs.declared.notation.leaf.Leaf.TheVariants as leaf;
ghost use Rattle.asn_modules_reader.specs.parts.Marks.{passes};
ghost use Rattle.asn_modules_reader.specs.parts.Starts.{opening_view, pair_at, start_view};
ghost use Rattle.std.specs.Prelude.{◌≡◌, ◌<◌, ◌≤◌, IfOk, length};

use crate::parts::class::{
    begins_field, names_value, past_class, past_fields, past_instance, take_field,
};
use crate::parts::mark::{Mark, is_small, take};
use crate::parts::opening::{Opening, opening_of};
use asn_lexer::{Kind, Token};
use asn_model::SeqKind;
use asn_modules_grammar::headers::{Expected, SyntaxFault, unexpected};
use asn_modules_grammar::notation::{Closed, Leaf};
use std::alloc::Global;

/// States what the words that begin a type stand for.
#[derive(Clone, Copy, Drop)]
pub enum Start {
    /// Is a type without parts.
    Leaf(Leaf),
    /// Is INTEGER.
    Integer,
    /// Is BIT STRING.
    BitString,
    /// Is ENUMERATED.
    Enumerated,
    /// Is SEQUENCE or SET.
    Members(SeqKind),
    /// Is CHOICE.
    Choice,
    /// Is the name of a type.
    Reference {
        /// Is the name of its module, where it is stated.
        module: Option<Token>,
        /// Is its name.
        name: Token,
    },
}

/// Returns what the fields of an object class are that stand here, and what follows them.
///
/// # Errors
///
/// `Unexpected` where no name stands after `&`.
fn read_field(tokens: &[Token]) -> Result<(Start, &[Token]), SyntaxFault>
    ensures found { Answers start_view
        (leaf_at (leaf.Closed closed.ClassField) (past_fields tokens.now)) result }
    ensures shorter { IfOk result (λ found. length found.1.now ≤ length tokens.now) }
{
    let rest = past_fields(tokens)?;
    Ok((Start::Leaf(Leaf::Closed(Closed::ClassField)), rest))
}

/// Returns the refusal of a name that begins with a small letter, where a type is expected. With
/// `<` after it, it begins a selection type (X.680, section 30), which isn't read.
fn refuse_small(name: Token, tokens: &[Token]) -> SyntaxFault {
    let met = match tokens {
        [sign, ..] if matches!(sign.kind, Kind::Less) => *sign,
        _ => name,
    };
    SyntaxFault::Unexpected {
        met: Some(met),
        expected: Expected::Type,
    }
}

/// Returns the type of this name, or what the fields are of a class, an object or a set of them of
/// this name, and what follows. `home` is the name of the module, where it is stated.
///
/// # Errors
///
/// `Unexpected` where a name that begins with a small letter has no fields, and those of
/// `read_field`.
fn read_named(
    home: Option<Token>,
    name: Token,
    tokens: &[Token],
) -> Result<(Start, &[Token]), SyntaxFault>
    ensures found { Answers start_view (named_at home name tokens.now) result }
    ensures shorter { IfOk result (λ found. length found.1.now ≤ length tokens.now) }
{
    if let Some(_naming) = take_field(tokens) {
        return read_field(tokens);
    }
    if is_small(name.kind) {
        return Err(refuse_small(name, tokens));
    }
    Ok((Start::Reference { module: home, name }, tokens))
}

/// Returns what the name begins, and what follows it.
///
/// # Errors
///
/// `Unexpected` where no name stands after `.`, and those of `read_named`.
fn read_reference(name: Token, tokens: &[Token]) -> Result<(Start, &[Token]), SyntaxFault>
    ensures found { Answers start_view (reference_at name tokens.now) result }
    ensures shorter { IfOk result (λ found. length found.1.now ≤ length tokens.now) }
{
    if is_small(name.kind) || begins_field(tokens) {
        return read_named(None, name, tokens);
    }
    let Some((_point, behind)) = take(Mark::Point, tokens) else {
        return read_named(None, name, tokens);
    };
    match take(Mark::Name, behind) {
        Some((second, rest)) => read_named(Some(name), second, rest),
        None => Err(unexpected(behind, Expected::Name)),
    }
}

/// Returns ANY, whose word was read, and what follows it.
///
/// # Errors
///
/// `Unexpected` where no `BY` and name stand after `DEFINED`.
fn read_any(tokens: &[Token]) -> Result<(Start, &[Token]), SyntaxFault>
    ensures found { Answers start_view (any_at tokens.now) result }
    ensures shorter { IfOk result (λ found. length found.1.now ≤ length tokens.now) }
{
    let any = Start::Leaf(Leaf::Closed(Closed::Any));
    let Some((_defined, behind)) = take(Mark::Defined, tokens) else {
        return Ok((any, tokens));
    };
    let Some((_by, naming)) = take(Mark::By, behind) else {
        return Err(unexpected(behind, Expected::By));
    };
    match take(Mark::Name, naming) {
        Some((_name, rest)) => Ok((any, rest)),
        None => Err(unexpected(naming, Expected::Name)),
    }
}

/// Returns what the second word of the name of a type is where it is missing.
fn expected_word(second: Mark) -> Expected {
    match second {
        Mark::Identifier => Expected::Identifier,
        Mark::Pdv => Expected::Pdv,
        _ => Expected::String,
    }
}

/// Returns what two words stand for of which the first was read, and what follows them.
///
/// # Errors
///
/// `Unexpected` where the second doesn't stand there.
fn read_pair(second: Mark, start: Start, tokens: &[Token]) -> Result<(Start, &[Token]), SyntaxFault>
    ensures found { Answers start_view (pair_at (passes second) (start_view start) tokens.now)
        result }
    ensures shorter { IfOk result (λ found. length found.1.now ≤ length tokens.now) }
{
    match take(second, tokens) {
        Some((_word, rest)) => Ok((start, rest)),
        None => Err(unexpected(tokens, expected_word(second))),
    }
}

/// Returns the object class after `CLASS`, and what follows it.
///
/// # Errors
///
/// `Unexpected` where its braces or its syntax don't stand here, and `OutOfMemory`.
fn read_class(alloc: Global, tokens: &[Token]) -> Result<(Start, &[Token]), SyntaxFault>
    ensures found { Answers start_view
        (leaf_at (leaf.Closed closed.ObjectClass) (past_class tokens.now)) result }
    ensures shorter { IfOk result (λ found. length found.1.now ≤ length tokens.now) }
{
    let rest = past_class(alloc, tokens)?;
    Ok((Start::Leaf(Leaf::Closed(Closed::ObjectClass)), rest))
}

/// Returns INSTANCE OF, whose first word was read, and what follows it.
///
/// # Errors
///
/// `Unexpected` where `OF` and the name of a class don't stand here.
fn read_instance(tokens: &[Token]) -> Result<(Start, &[Token]), SyntaxFault>
    ensures found { Answers start_view
        (leaf_at (leaf.Closed closed.InstanceOf) (past_instance tokens.now)) result }
    ensures shorter { IfOk result (λ found. length found.1.now ≤ length tokens.now) }
{
    let rest = past_instance(tokens)?;
    Ok((Start::Leaf(Leaf::Closed(Closed::InstanceOf)), rest))
}

/// Returns a class that a reserved word names, or what its fields are, and what follows.
///
/// # Errors
///
/// Those of `read_field`.
fn read_named_class(tokens: &[Token]) -> Result<(Start, &[Token]), SyntaxFault>
    ensures found { Answers start_view (named_class_at tokens.now) result }
    ensures shorter { IfOk result (λ found. length found.1.now ≤ length tokens.now) }
{
    match take_field(tokens) {
        Some(_naming) => read_field(tokens),
        None => Ok((Start::Leaf(Leaf::Closed(Closed::ObjectClass)), tokens)),
    }
}

/// Returns what begins a type, and what follows it.
///
/// # Errors
///
/// `Unexpected` where no type begins, and `OutOfMemory`.
pub fn read_start(alloc: Global, tokens: &[Token]) -> Result<(Start, &[Token]), SyntaxFault>
    ensures found { Answers start_view (start_at tokens.now) result }
    ensures shorter { IfOk result (λ found. length found.1.now < length tokens.now) }
{
    let [first, rest @ ..] = tokens else {
        return Err(unexpected(tokens, Expected::Type));
    };
    match first.kind {
        Kind::Name(_) => read_reference(*first, rest),
        Kind::Reserved(keyword) => match opening_of(keyword) {
            Opening::Whole(start) => Ok((start, rest)),
            Opening::Pair(second, start) => read_pair(second, start, rest),
            Opening::Any => read_any(rest),
            Opening::ClassBody => read_class(alloc, rest),
            Opening::InstanceOf => read_instance(rest),
            Opening::NamedClass => read_named_class(rest),
            Opening::Nothing => Err(unexpected(tokens, Expected::Type)),
        },
        _ => Err(unexpected(tokens, Expected::Type)),
    }
}

/// Returns whether a type begins with a word that this is.
fn is_opening(opening: Opening) -> bool
    ensures { result ≡ is_opening (opening_view opening) }
{
    !matches!(opening, Opening::Nothing)
}

/// Returns whether a type begins with a token of the kind.
fn opens_type(kind: Kind) -> bool
    ensures { result ≡ opens_type kind }
{
    match kind {
        Kind::Name(_) | Kind::OpenBracket => true,
        Kind::Reserved(keyword) => is_opening(opening_of(keyword)),
        _ => false,
    }
}

/// Returns whether the name of a value in another module stands here.
fn names_module_value(tokens: &[Token]) -> bool
    ensures { result ≡ names_module_value tokens.now }
{
    match tokens {
        [home, point, rest @ ..] => {
            matches!(home.kind, Kind::Name(_))
                && (matches!(point.kind, Kind::Point) && names_value(rest))
        }
        _ => false,
    }
}

/// Returns whether a type begins here. The names of values begin none.
pub fn begins_type(tokens: &[Token]) -> bool
    ensures { result ≡ begins_type tokens.now }
{
    match tokens {
        [first, ..] => {
            opens_type(first.kind) && !(names_value(tokens) || names_module_value(tokens))
        }
        [] => false,
    }
}

//! Reads types.
ghost use Rattle.asn_lexer.specs.declared.kind.Kind.TheVariants as token_kind;
ghost use Rattle.asn_model.specs.ShapeView.{kind_view};
ghost use Rattle.asn_modules_grammar.specs.headers.Fronts.{first_is};
ghost use Rattle.asn_modules_grammar.specs.notation.Grammar.{BaseParses, BracesParse, MemberParses};
ghost use Rattle.asn_modules_grammar.specs.notation.Grammar.{MembersParse, NotationParses};
ghost use Rattle.asn_modules_grammar.specs.notation.Kinds.{is_component_word};
ghost use Rattle.asn_modules_grammar.specs.notation.Starts as starts;
ghost use Rattle.asn_modules_grammar.specs.notation.View.{component_view, members_view, notation_view};
ghost use Rattle.asn_modules_reader.specs.parts.Reading.{Reads};
ghost use Rattle.asn_modules_reader.specs.parts.Starts.{start_view};
ghost use Rattle.asn_modules_reader.specs.Arguments.{AreArguments, arguments_view};
ghost use Rattle.asn_modules_reader.specs.Views.{base_view, member_seen};
ghost use Rattle.std.specs.Prelude.{◌≡◌, ◌<◌, ◌≤◌, ◌^◌, IfOk, false, length, map};

use crate::bases::{fields_of, instance_or, list_of, may_have_components};
use crate::limits::NESTING_LIMIT;
use crate::members::members_of;
use crate::parts::{
    Entries, Mark, Sign, Start, begins_type, past, read_items, read_named_numbers, read_of,
    read_presence, read_sizes, read_start, read_tags, take, take_sign,
};
use crate::version::past_version;
use asn_lexer::Token;
use asn_model::SeqKind;
use asn_modules_grammar::headers::{Expected, Group, SyntaxFault, unexpected};
use asn_modules_grammar::notation::{Base, Component, Member, Members, Notation};
use std::alloc::Global;

/// Reads COMPONENTS OF and its type, which is looked for at the level. No word of a component
/// stands here.
///
/// # Errors
///
/// `Unexpected` where it doesn't stand here or may not, and `OutOfMemory`.
#[cycle(read)]
fn read_components_of(
    alloc: Global,
    fields: bool,
    tokens: &[Token],
    level: usize,
) -> Result<(Component, &[Token]), SyntaxFault>
    requires bounded { level < 2 ^ 32 }
    requires other { first_is is_component_word tokens.now ≡ false }
    ensures found { Reads component_view
        (MemberParses NESTING_LIMIT level fields token_kind.CloseVersion tokens.now) result }
    ensures shorter { IfOk result (λ found. length found.1.now < length tokens.now) }
{
    if !fields {
        return Err(unexpected(tokens, Expected::Component));
    }
    let Some(behind) = take_sign(Sign::Components, tokens) else {
        return Err(unexpected(tokens, Expected::Component));
    };
    let Some(inner) = take_sign(Sign::Of, behind) else {
        return Err(unexpected(behind, Expected::Of));
    };
    let (notation, rest) = read_notation(alloc, inner, level)?;
    if !may_have_components(&notation) {
        return Err(unexpected(inner, Expected::Name));
    }
    Ok((Component::ComponentsOf(notation), rest))
}

/// Reads a component of a SEQUENCE or SET, as `fields` states, or an alternative of a CHOICE, whose
/// type is looked for at the level.
///
/// # Errors
///
/// `Unexpected` where none stands here, and `OutOfMemory`.
#[cycle(read)]
fn read_component(
    alloc: Global,
    fields: bool,
    tokens: &[Token],
    level: usize,
) -> Result<(Component, &[Token]), SyntaxFault>
    requires { level < 2 ^ 32 }
    ensures found { Reads component_view
        (MemberParses NESTING_LIMIT level fields token_kind.CloseVersion tokens.now) result }
    ensures shorter { IfOk result (λ found. length found.1.now < length tokens.now) }
{
    let Some((name, typed)) = take(Mark::ComponentWord, tokens) else {
        return read_components_of(alloc, fields, tokens, level);
    };
    let (notation, behind) = read_notation(alloc, typed, level)?;
    let (presence, rest) = read_presence(alloc, fields, behind)?;
    let component = Component::Named {
        name,
        notation,
        presence,
    };
    Ok((component, rest))
}

/// Reads the components between version brackets, after the opening one and the number of the
/// version, to the closing one. Their types are looked for at the level.
///
/// # Errors
///
/// `Unexpected` where they aren't in the grammar, and `OutOfMemory`.
#[cycle(read)]
fn read_group(
    alloc: Global,
    fields: bool,
    tokens: &[Token],
    level: usize,
) -> Result<(Vec<Component>, &[Token]), SyntaxFault>
    requires { level < 2 ^ 32 }
    ensures found { Reads (λ components. map component_view components.items)
        (MembersParse NESTING_LIMIT level fields token_kind.CloseVersion tokens.now) result }
    ensures shorter { IfOk result (λ found. length found.1.now < length tokens.now) }
{
    let mut components = Vec::new(alloc);
    let mut rest = tokens;
    'components: loop {
        let (component, behind) = read_component(alloc, fields, rest, level)?;
        components.push(component)?;
        if let Some(after) = take_sign(Sign::CloseVersion, behind) {
            return Ok((components, after));
        }
        let Some(next) = take_sign(Sign::Comma, behind) else {
            return Err(unexpected(behind, Expected::CommaOrVersion));
        };
        rest = next;
    }
}

/// Reads an entry between braces, whose types are looked for at the level: `None` is an extension
/// marker.
///
/// # Errors
///
/// `Unexpected` where none stands here, and `OutOfMemory`.
#[cycle(read)]
fn read_member(
    alloc: Global,
    fields: bool,
    tokens: &[Token],
    level: usize,
) -> Result<(Option<Member>, &[Token]), SyntaxFault>
    requires { level < 2 ^ 32 }
    ensures found { Reads member_seen
        (MemberParses NESTING_LIMIT level fields token_kind.CloseBrace tokens.now) result }
    ensures shorter { IfOk result (λ found. length found.1.now < length tokens.now) }
{
    if let Some(rest) = take_sign(Sign::Ellipsis, tokens) {
        return Ok((None, rest));
    }
    if let Some(inner) = take_sign(Sign::OpenVersion, tokens) {
        let (components, rest) = read_group(alloc, fields, past_version(inner), level)?;
        return Ok((Some(Member::Group(components)), rest));
    }
    let (component, rest) = read_component(alloc, fields, tokens, level)?;
    Ok((Some(Member::One(component)), rest))
}

/// Reads the entries between braces, after the opening one, to the closing one. Their types are
/// looked for at the level.
///
/// # Errors
///
/// `Unexpected` where they aren't in the grammar or an extension marker stands a third time, and
/// `OutOfMemory`.
#[cycle(read)]
fn read_braces(
    alloc: Global,
    fields: bool,
    tokens: &[Token],
    level: usize,
) -> Result<(Members, &[Token]), SyntaxFault>
    requires { level < 2 ^ 32 }
    ensures found { Reads members_view (BracesParse NESTING_LIMIT level fields tokens.now) result }
    ensures shorter { IfOk result (λ found. length found.1.now < length tokens.now) }
{
    let mut entries = Entries::new(alloc);
    if let Some(after) = take_sign(Sign::CloseBrace, tokens) {
        let none = members_of(entries);
        return Ok((none, after));
    }
    let mut rest = tokens;
    'members: loop {
        let (member, behind) = read_member(alloc, fields, rest, level)?;
        if !entries.may_add(&member, 2) {
            return Err(unexpected(rest, Expected::Component));
        }
        entries.add(alloc, member)?;
        if let Some(after) = take_sign(Sign::CloseBrace, behind) {
            let members = members_of(entries);
            return Ok((members, after));
        }
        let Some(next) = take_sign(Sign::Comma, behind) else {
            return Err(unexpected(behind, Expected::CommaOrBrace));
        };
        rest = next;
    }
}

/// Reads what stands after SEQUENCE or SET at the level: entries between braces, or OF and the
/// type of the elements.
///
/// # Errors
///
/// `Unexpected` where neither stands here, and `OutOfMemory`.
#[cycle(read)]
fn read_members(
    alloc: Global,
    kind: SeqKind,
    tokens: &[Token],
    level: usize,
) -> Result<(Base, &[Token]), SyntaxFault>
    requires { level < 2 ^ 31 }
    ensures found { Reads base_view
        (BaseParses NESTING_LIMIT level (starts.members (kind_view kind)) tokens.now) result }
    ensures shorter { IfOk result (λ found. length found.1.now < length tokens.now) }
{
    if let Some(inner) = take_sign(Sign::OpenBrace, tokens) {
        let (members, rest) = read_braces(alloc, true, inner, level + 1)?;
        return Ok((fields_of(kind, members), rest));
    }
    let inner = read_of(alloc, tokens)?;
    let (element, rest) = read_notation(alloc, inner, level + 1)?;
    let list = list_of(alloc, kind, element)?;
    Ok((list, rest))
}

/// Reads what stands after CHOICE at the level: alternatives between braces.
///
/// # Errors
///
/// `Unexpected` where they don't stand here, and `OutOfMemory`.
#[cycle(read)]
fn read_choice(
    alloc: Global,
    tokens: &[Token],
    level: usize,
) -> Result<(Base, &[Token]), SyntaxFault>
    requires { level < 2 ^ 31 }
    ensures found { Reads base_view
        (BaseParses NESTING_LIMIT level starts.choice tokens.now) result }
    ensures shorter { IfOk result (λ found. length found.1.now < length tokens.now) }
{
    let Some(inner) = take_sign(Sign::OpenBrace, tokens) else {
        return Err(unexpected(tokens, Expected::OpenBrace));
    };
    let (members, rest) = read_braces(alloc, false, inner, level + 1)?;
    Ok((Base::Choice(members), rest))
}

/// Reads what stands after ENUMERATED: items between braces.
///
/// # Errors
///
/// `Unexpected` where they don't stand here, and `OutOfMemory`.
fn read_enumerated(alloc: Global, tokens: &[Token]) -> Result<(Base, &[Token]), SyntaxFault>
    ensures found { Reads base_view
        (BaseParses NESTING_LIMIT 0 starts.enumerated tokens.now) result }
    ensures shorter { IfOk result (λ found. length found.1.now < length tokens.now) }
{
    let Some(inner) = take_sign(Sign::OpenBrace, tokens) else {
        return Err(unexpected(tokens, Expected::OpenBrace));
    };
    let (items, rest) = read_items(alloc, inner)?;
    let Entries { root, added, .. } = items;
    Ok((Base::Enumerated { items: root, added }, rest))
}

/// Reads the actual parameters of a type, after the opening brace, to the closing one. Types are
/// looked for at the level. `None` is returned where some are no types: those are passed over.
///
/// # Errors
///
/// `Unexpected` where a type doesn't go on as it begins or a group isn't closed, and `OutOfMemory`.
#[cycle(read)]
fn read_arguments(
    alloc: Global,
    tokens: &[Token],
    level: usize,
) -> Result<(Option<Vec<Notation>>, &[Token]), SyntaxFault>
    requires { level < 2 ^ 32 }
    ensures found { Reads arguments_view (AreArguments NESTING_LIMIT level tokens.now) result }
    ensures shorter { IfOk result (λ found. length found.1.now ≤ length tokens.now) }
{
    let mut arguments = Vec::new(alloc);
    let mut rest = tokens;
    'arguments: loop {
        if !begins_type(rest) {
            let after = past(alloc, Group::Braces, rest)?;
            return Ok((None, after));
        }
        let (argument, behind) = read_notation(alloc, rest, level)?;
        arguments.push(argument)?;
        if let Some(after) = take_sign(Sign::CloseBrace, behind) {
            return Ok((Some(arguments), after));
        }
        let Some(next) = take_sign(Sign::Comma, behind) else {
            let after = past(alloc, Group::Braces, behind)?;
            return Ok((None, after));
        };
        rest = next;
    }
}

/// Reads what stands after the name of a type at the level: actual parameters in braces, or none.
/// `home` is the name of the module, where it is stated.
///
/// # Errors
///
/// Those of `read_arguments`.
#[cycle(read)]
fn read_named(
    alloc: Global,
    home: Option<Token>,
    name: Token,
    tokens: &[Token],
    level: usize,
) -> Result<(Base, &[Token]), SyntaxFault>
    requires { level < 2 ^ 31 }
    ensures found { Reads base_view
        (BaseParses NESTING_LIMIT level (starts.reference home name) tokens.now) result }
    ensures shorter { IfOk result (λ found. length found.1.now ≤ length tokens.now) }
{
    let Some(inner) = take_sign(Sign::OpenBrace, tokens) else {
        return Ok((Base::Reference { module: home, name }, tokens));
    };
    let (arguments, rest) = read_arguments(alloc, inner, level + 1)?;
    Ok((instance_or(home, name, arguments), rest))
}

/// Reads what stands after the words that begin a type at the level.
///
/// # Errors
///
/// `Unexpected` where the type doesn't go on as it begins, and `OutOfMemory`.
#[cycle(read)]
fn read_base(
    alloc: Global,
    start: Start,
    tokens: &[Token],
    level: usize,
) -> Result<(Base, &[Token]), SyntaxFault>
    requires { level < 2 ^ 31 }
    ensures found { Reads base_view
        (BaseParses NESTING_LIMIT level (start_view start) tokens.now) result }
    ensures shorter { IfOk result (λ found. length found.1.now ≤ length tokens.now) }
{
    match start {
        Start::Leaf(leaf) => Ok((Base::Leaf(leaf), tokens)),
        Start::Reference { module, name } => read_named(alloc, module, name, tokens, level),
        Start::Integer => {
            let (numbers, rest) = read_named_numbers(alloc, tokens)?;
            Ok((Base::Integer(numbers), rest))
        }
        Start::BitString => {
            let (bits, rest) = read_named_numbers(alloc, tokens)?;
            Ok((Base::BitString(bits), rest))
        }
        Start::Enumerated => read_enumerated(alloc, tokens),
        Start::Members(kind) => read_members(alloc, kind, tokens, level),
        Start::Choice => read_choice(alloc, tokens, level),
    }
}

/// Reads a type that is looked for at the level, and returns what follows it.
///
/// # Errors
///
/// `Unexpected` exactly where no type stands here at a level up to the limit, unless memory runs
/// out, and `OutOfMemory`.
#[cycle(read)]
pub fn read_notation(
    alloc: Global,
    tokens: &[Token],
    level: usize,
) -> Result<(Notation, &[Token]), SyntaxFault>
    requires { level < 2 ^ 32 }
    ensures found { Reads notation_view (NotationParses NESTING_LIMIT level tokens.now) result }
    ensures shorter { IfOk result (λ found. length found.1.now < length tokens.now) }
{
    if level > NESTING_LIMIT {
        return Err(unexpected(tokens, Expected::HigherType));
    }
    let (tags, named) = read_tags(alloc, tokens)?;
    let (start, behind) = read_start(alloc, named)?;
    let (base, constrained) = read_base(alloc, start, behind, level)?;
    let (sizes, rest) = read_sizes(alloc, constrained)?;
    let notation = Notation { tags, base, sizes };
    Ok((notation, rest))
}

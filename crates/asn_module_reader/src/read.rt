//! Reads type assignments: one function for each production of the grammar.
ghost use Rattle.asn_model.specs.ShapeView.{kind_view};
ghost use Rattle.asn_module_reader.specs.EntryLists.{Allows};
ghost use Rattle.asn_module_reader.specs.Productions.{AssignmentParses, MembersParse};
ghost use Rattle.asn_module_reader.specs.Productions.{elements_read, items_read};
ghost use Rattle.asn_module_reader.specs.StartView.{start_view};
ghost use Rattle.asn_module_reader.specs.TokenView.{token_view};
ghost use Rattle.asn_notation.specs.Grammar.{ElementParses, ItemListParses, ItemParses, ListParses};
ghost use Rattle.asn_notation.specs.Grammar.{ModuleParses, NotationParses, is_optional};
ghost use Rattle.asn_notation.specs.Grammar.{is_optional_word, past_optional, separator_of};
ghost use Rattle.asn_notation.specs.Notation as spec;
ghost use Rattle.asn_notation.specs.Notation.{is_item_marker, is_marker};
ghost use Rattle.asn_notation.specs.Starts as starts;
ghost use Rattle.asn_notation.specs.Starts.{start_at};
ghost use Rattle.asn_notation.specs.Tokens as grammar;
ghost use Rattle.asn_notation.specs.Tokens.{first_token, keyword_of, past_token, word_of};
ghost use Rattle.asn_notation.specs.View.{assignment_view, components_view, module_view};
ghost use Rattle.asn_notation.specs.View.{notation_view};
ghost use Rattle.std.specs.Prelude.{◌≡◌, ◌<◌, ◌++◌, ◌∷◌, ◌^◌, [], ℕ, Bool, List, Option, None};
ghost use Rattle.std.specs.Prelude.{Some, Err, IfOk, OnOk, false, length, string_bytes};
ghost use Rattle.std.specs.Str.{chars};

use crate::entries::Entries;
use crate::fault::ReadFault;
use crate::start::{Start, start_of_word};
use crate::token::{Token, take_closing_brace, take_token, takes_keyword};
use asn_core::{OutOfMemory, Scan};
use asn_model::SeqKind;
use asn_notation::limits::NESTING_LIMIT;
use asn_notation::{Assignment, Component, Components, Keyword, Module, Notation, is_type_name};
use avn_cursor::Cursor;
use std::alloc::Global;

/// Returns what the token states of the list whose entry it ends: whether another entry follows, or
/// `None` where it ends no entry.
fn separator(token: &Token) -> Option<bool>
    ensures { result ≡ separator_of (token_view token.now) }
{
    match token {
        Token::Comma => Some(true),
        Token::CloseBrace => Some(false),
        _ => None,
    }
}

/// Takes the comma or brace that ends an entry of a list. Returns whether another entry follows.
///
/// # Errors
///
/// `Syntax` where there is neither, and `OutOfMemory`.
fn take_separator(alloc: Global, cursor: &mut Cursor<'_>) -> Result<bool, ReadFault>
    ensures ok { IfOk result (λ more. separator_of (first_token cursor.old.rest) ≡ Some more) }
    ensures moves { OnOk result (cursor.new.rest ≡ past_token cursor.old.rest) }
    ensures shorter { OnOk result (length cursor.new.rest < length cursor.old.rest) }
    ensures none { result ≡ Err ReadFault.Syntax
        → separator_of (first_token cursor.old.rest) ≡ None }
{
    let token = take_token(alloc, cursor)?;
    match separator(&token) {
        Some(more) => Ok(more),
        None => Err(ReadFault::Syntax),
    }
}

/// Returns whether the token is OPTIONAL.
fn is_optional(token: &Token) -> bool
    ensures { result ≡ is_optional_word (keyword_of (word_of (token_view token.now))) }
{
    match token {
        Token::Word(word) => matches!(Keyword::named(word), Some(Keyword::Optional)),
        _ => false,
    }
}

/// Takes what ends a component: OPTIONAL, where it is allowed and stands there, and then a comma or
/// brace. Returns whether the component is optional, and whether another entry follows.
///
/// # Errors
///
/// `Syntax` where there is neither comma nor brace, and `OutOfMemory`.
fn take_component_end(
    alloc: Global,
    cursor: &mut Cursor<'_>,
    allowed: bool,
) -> Result<(bool, bool), ReadFault>
    ensures optional { IfOk result (λ end. end.0 ≡ is_optional allowed cursor.old.rest) }
    ensures ok { IfOk result (λ end.
        separator_of (first_token (past_optional allowed cursor.old.rest)) ≡ Some end.1) }
    ensures moves { OnOk result (cursor.new.rest
        ≡ past_token (past_optional allowed cursor.old.rest)) }
    ensures shorter { OnOk result (length cursor.new.rest < length cursor.old.rest) }
    ensures none { result ≡ Err ReadFault.Syntax
        → separator_of (first_token (past_optional allowed cursor.old.rest)) ≡ None }
{
    let token = take_token(alloc, cursor)?;
    if allowed && is_optional(&token) {
        let more = take_separator(alloc, cursor)?;
        return Ok((true, more));
    }
    match separator(&token) {
        Some(more) => Ok((false, more)),
        None => Err(ReadFault::Syntax),
    }
}

/// Takes an opening brace.
///
/// # Errors
///
/// `Syntax` where there is none, and `OutOfMemory`.
fn take_opening_brace(alloc: Global, cursor: &mut Cursor<'_>) -> Result<(), ReadFault>
    ensures ok { OnOk result (first_token cursor.old.rest ≡ grammar.Token.open_brace) }
    ensures moves { OnOk result (cursor.new.rest ≡ past_token cursor.old.rest) }
    ensures shorter { OnOk result (length cursor.new.rest < length cursor.old.rest) }
    ensures none { result ≡ Err ReadFault.Syntax
        → first_token cursor.old.rest ≡ grammar.Token.open_brace → ⊥ }
{
    match take_token(alloc, cursor)? {
        Token::OpenBrace => Ok(()),
        _ => Err(ReadFault::Syntax),
    }
}

/// Takes the first word of a notation, and returns what it stands for.
///
/// # Errors
///
/// `OutOfMemory` alone.
fn take_start(alloc: Global, cursor: &mut Cursor<'_>) -> Result<Start, OutOfMemory>
    ensures found { IfOk result (λ s. start_view s ≡ start_at cursor.old.rest) }
    ensures moves { IfOk result (λ s. (start_view s ≡ starts.Start.nothing → ⊥)
        → cursor.new.rest ≡ past_token cursor.old.rest) }
    ensures shorter { IfOk result (λ s. (start_view s ≡ starts.Start.nothing → ⊥)
        → length cursor.new.rest < length cursor.old.rest) }
{
    match take_token(alloc, cursor)? {
        Token::Word(word) => Ok(start_of_word(word)),
        _ => Ok(Start::Nothing),
    }
}

/// Reads an item of an ENUMERATED with what ends it. Returns whether another follows.
///
/// # Errors
///
/// `Syntax` where there is no item, or the extension marker stands again, and `OutOfMemory`.
fn read_item(
    alloc: Global,
    cursor: &mut Cursor<'_>,
    items: &mut Entries<String>,
) -> Result<bool, ReadFault>
    ensures ok { IfOk result (λ more. (i : Option (List ℕ))
        × ItemParses cursor.old.rest i more cursor.new.rest
        × Allows is_item_marker (items_read items.old) i
        × (items_read items.new ≡ items_read items.old ++ i ∷ [])) }
    ensures none { result ≡ Err ReadFault.Syntax
        → (i : Option (List ℕ)) (more : Bool) (rest : List ℕ)
        → ItemParses cursor.old.rest i more rest → Allows is_item_marker (items_read items.old) i
        → ⊥ }
    ensures shorter { OnOk result (length cursor.new.rest < length cursor.old.rest) }
{
    match take_token(alloc, cursor)? {
        Token::Word(name) => {
            items.push(name)?;
            take_separator(alloc, cursor)
        }
        Token::Ellipsis => {
            if items.is_extensible() {
                return Err(ReadFault::Syntax);
            }
            items.mark(alloc);
            take_separator(alloc, cursor)
        }
        _ => Err(ReadFault::Syntax),
    }
}

/// Reads the items of an ENUMERATED behind the opening brace, to the closing one.
///
/// # Errors
///
/// `Syntax` where they aren't in the grammar, and `OutOfMemory`.
fn read_items(alloc: Global, cursor: &mut Cursor<'_>) -> Result<Entries<String>, ReadFault>
    ensures ok { IfOk result (λ items.
        ItemListParses cursor.old.rest (items_read items) cursor.new.rest) }
    ensures none { result ≡ Err ReadFault.Syntax
        → (items : List (Option (List ℕ))) (rest : List ℕ)
        → ItemListParses cursor.old.rest items rest → ⊥ }
    ensures shorter { OnOk result (length cursor.new.rest < length cursor.old.rest) }
{
    let mut items = Entries::new(alloc);
    if take_closing_brace(cursor) {
        return Ok(items);
    }
    'items: while read_item(alloc, cursor, &mut items)? {}
    Ok(items)
}

/// Reads a component of a SEQUENCE or SET, or an alternative of a CHOICE, with what ends it, whose
/// notation is looked for at the level. Returns whether another follows.
///
/// # Errors
///
/// `Syntax` where there is none, or the extension marker stands again, and `OutOfMemory`.
#[cycle(read)]
fn read_element(
    alloc: Global,
    cursor: &mut Cursor<'_>,
    level: usize,
    allowed: bool,
    elements: &mut Entries<Component>,
) -> Result<bool, ReadFault>
    requires { level < 2 ^ 32 }
    ensures ok { IfOk result (λ more. (e : spec.Element)
        × ElementParses NESTING_LIMIT level allowed cursor.old.rest e more cursor.new.rest
        × Allows is_marker (elements_read elements.old) e
        × (elements_read elements.new ≡ elements_read elements.old ++ e ∷ [])) }
    ensures none { result ≡ Err ReadFault.Syntax
        → (e : spec.Element) (more : Bool) (rest : List ℕ)
        → ElementParses NESTING_LIMIT level allowed cursor.old.rest e more rest
        → Allows is_marker (elements_read elements.old) e → ⊥ }
    ensures shorter { OnOk result (length cursor.new.rest < length cursor.old.rest) }
{
    match take_token(alloc, cursor)? {
        Token::Word(name) => {
            let notation = read_notation(alloc, cursor, level)?;
            let (optional, more) = take_component_end(alloc, cursor, allowed)?;
            elements.push(Component {
                name,
                notation,
                optional,
            })?;
            Ok(more)
        }
        Token::Ellipsis => {
            if elements.is_extensible() {
                return Err(ReadFault::Syntax);
            }
            elements.mark(alloc);
            take_separator(alloc, cursor)
        }
        _ => Err(ReadFault::Syntax),
    }
}

/// Reads the components of a SEQUENCE or SET, or the alternatives of a CHOICE, behind the opening
/// brace, to the closing one. Their notations are looked for at the level, and they may be optional
/// where that is allowed.
///
/// # Errors
///
/// `Syntax` where they aren't in the grammar, and `OutOfMemory`.
#[cycle(read)]
fn read_components(
    alloc: Global,
    cursor: &mut Cursor<'_>,
    level: usize,
    allowed: bool,
) -> Result<Components, ReadFault>
    requires { level < 2 ^ 32 }
    ensures ok { IfOk result (λ c. ListParses NESTING_LIMIT level allowed cursor.old.rest
        (components_view c) cursor.new.rest) }
    ensures none { result ≡ Err ReadFault.Syntax → (es : List spec.Element) (rest : List ℕ)
        → ListParses NESTING_LIMIT level allowed cursor.old.rest es rest → ⊥ }
    ensures shorter { OnOk result (length cursor.new.rest < length cursor.old.rest) }
{
    let mut elements = Entries::new(alloc);
    if take_closing_brace(cursor) {
        let Entries { root, added } = elements;
        return Ok(Components { root, added });
    }
    'elements: while read_element(alloc, cursor, level, allowed, &mut elements)? {}
    let Entries { root, added } = elements;
    Ok(Components { root, added })
}

/// Reads what stands behind SEQUENCE or SET: components between braces, or OF and the notation of
/// the elements. These are looked for at the level.
///
/// # Errors
///
/// `Syntax` where there is neither, and `OutOfMemory`.
#[cycle(read)]
fn read_members(
    alloc: Global,
    cursor: &mut Cursor<'_>,
    level: usize,
    kind: SeqKind,
) -> Result<Notation, ReadFault>
    requires { level < 2 ^ 32 }
    ensures ok { IfOk result (λ n. MembersParse NESTING_LIMIT level (kind_view kind)
        cursor.old.rest (notation_view n) cursor.new.rest) }
    ensures none { result ≡ Err ReadFault.Syntax → (n : spec.Notation) (rest : List ℕ)
        → MembersParse NESTING_LIMIT level (kind_view kind) cursor.old.rest n rest → ⊥ }
    ensures shorter { OnOk result (length cursor.new.rest < length cursor.old.rest) }
{
    match take_token(alloc, cursor)? {
        Token::OpenBrace => {
            let components = read_components(alloc, cursor, level, true)?;
            match kind {
                SeqKind::Sequence => Ok(Notation::Sequence(components)),
                SeqKind::Set => Ok(Notation::Set(components)),
            }
        }
        Token::Word(word) => match Keyword::named(&word) {
            Some(Keyword::Of) => {
                let element = Box::new(alloc, read_notation(alloc, cursor, level)?)?;
                match kind {
                    SeqKind::Sequence => Ok(Notation::SequenceOf(element)),
                    SeqKind::Set => Ok(Notation::SetOf(element)),
                }
            }
            _ => Err(ReadFault::Syntax),
        },
        _ => Err(ReadFault::Syntax),
    }
}

/// Reads a notation that is looked for at the level.
///
/// # Errors
///
/// `Syntax` where there is none, or the level is above the limit, and `OutOfMemory`.
#[cycle(read)]
fn read_notation(
    alloc: Global,
    cursor: &mut Cursor<'_>,
    level: usize,
) -> Result<Notation, ReadFault>
    requires { level < 2 ^ 32 }
    ensures ok { IfOk result (λ n. NotationParses NESTING_LIMIT level cursor.old.rest
        (notation_view n) cursor.new.rest) }
    ensures none { result ≡ Err ReadFault.Syntax → (n : spec.Notation) (rest : List ℕ)
        → NotationParses NESTING_LIMIT level cursor.old.rest n rest → ⊥ }
    ensures shorter { OnOk result (length cursor.new.rest < length cursor.old.rest) }
{
    if level > NESTING_LIMIT {
        return Err(ReadFault::Syntax);
    }
    match take_start(alloc, cursor)? {
        Start::Whole(notation) => Ok(notation),
        Start::Pair(second, notation) => {
            if takes_keyword(alloc, cursor, second)? {
                Ok(notation)
            } else {
                Err(ReadFault::Syntax)
            }
        }
        Start::Members(kind) => read_members(alloc, cursor, level + 1, kind),
        Start::Choice => {
            take_opening_brace(alloc, cursor)?;
            let alternatives = read_components(alloc, cursor, level + 1, false)?;
            Ok(Notation::Choice(alternatives))
        }
        Start::Enumerated => {
            take_opening_brace(alloc, cursor)?;
            let Entries { root, added } = read_items(alloc, cursor)?;
            Ok(Notation::Enumerated { items: root, added })
        }
        Start::Nothing => Err(ReadFault::Syntax),
    }
}

/// Reads what stands behind a word that is to name a type.
///
/// # Errors
///
/// `Syntax` where the word names no type or no notation is assigned to it, and `OutOfMemory`.
fn read_assignment(
    alloc: Global,
    cursor: &mut Cursor<'_>,
    name: String,
) -> Result<Assignment, ReadFault>
    ensures ok { IfOk result (λ a. AssignmentParses NESTING_LIMIT (string_bytes name)
        cursor.old.rest (assignment_view a) cursor.new.rest) }
    ensures none { result ≡ Err ReadFault.Syntax → (a : spec.Assignment) (rest : List ℕ)
        → AssignmentParses NESTING_LIMIT (string_bytes name) cursor.old.rest a rest → ⊥ }
    ensures shorter { OnOk result (length cursor.new.rest < length cursor.old.rest) }
{
    if !is_type_name(&name) {
        return Err(ReadFault::Syntax);
    }
    match take_token(alloc, cursor)? {
        Token::Assignment => {
            let notation = read_notation(alloc, cursor, 0)?;
            Ok(Assignment { name, notation })
        }
        _ => Err(ReadFault::Syntax),
    }
}

/// Reads the assignments that the whole text is. Their names are not compared.
///
/// # Errors
///
/// `Syntax` exactly where the text is not in the grammar, unless memory runs out, and
/// `OutOfMemory`.
pub fn read_assignments(alloc: Global, input: &str) -> Result<Module, ReadFault>
    ensures ok { IfOk result (λ m. ModuleParses NESTING_LIMIT (chars input.now) (module_view m)) }
    ensures none { result ≡ Err ReadFault.Syntax → (assignments : List spec.Assignment)
        → ModuleParses NESTING_LIMIT (chars input.now) assignments → ⊥ }
{
    let mut cursor = Cursor::new(Scan::new(input));
    let mut assignments = Vec::new(alloc);
    'assignments: loop {
        match take_token(alloc, &mut cursor)? {
            Token::End => return Ok(Module { assignments }),
            Token::Word(name) => {
                assignments.push(read_assignment(alloc, &mut cursor, name)?)?;
            }
            _ => return Err(ReadFault::Syntax),
        }
    }
}

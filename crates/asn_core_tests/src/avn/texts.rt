//! Reads texts of the notation with ample memory.
use crate::avn::kinds::{
    assert_text, assert_value, copy_of, kinds, let_go, normal_form, printed, read,
};
use avn_value::{AvnValue, parse_avn};
use std::alloc::{AllocError, Global};
use std::process::Abort;
use std::test::Fail;

/// Lists texts, the variants of the values that they are read as, and what those print: tokens,
/// then braces and choices.
const READ_TEXTS: [(&str, &str, &str); 37] = [
    // The six keywords mean a value of their own.
    ("TRUE", "Boolean", "TRUE"),
    ("FALSE", "Boolean", "FALSE"),
    ("NULL", "Null", "NULL"),
    ("PLUS-INFINITY", "Real", "PLUS-INFINITY"),
    ("MINUS-INFINITY", "Real", "MINUS-INFINITY"),
    ("NOT-A-NUMBER", "Real", "NOT-A-NUMBER"),
    // Any other name is an identifier, as a keyword with more characters is.
    ("z", "Enumerated", "z"),
    ("TRUE-9_Z", "Enumerated", "TRUE-9_Z"),
    // The digits of a number are kept as they stand, however many they are.
    ("0", "Integer", "0"),
    ("-0", "Integer", "-0"),
    ("007", "Integer", "007"),
    (
        "1111111111111111111111111111111111111111",
        "Integer",
        "1111111111111111111111111111111111111111",
    ),
    // A point and a digit make it a real, whose digits are kept too.
    ("1.5", "Real", "1.5"),
    ("-00.50", "Real", "-00.50"),
    // White space of Unicode may stand between digits, and capitals are printed.
    ("''H", "OctetString", "''H"),
    ("' 01 fF 'H", "OctetString", "'01FF'H"),
    ("'01\u{A0}FF'H", "OctetString", "'01FF'H"),
    // No bits are printed as no octets, and bits that are no whole octets stay bits.
    ("''B", "BitString", "''H"),
    ("'1'B", "BitString", "'1'B"),
    ("'10\n101'B", "BitString", "'10101'B"),
    // A doubled quote is one quote of the string.
    ("\"\"", "CharString", "\"\""),
    ("\"a\"\"b\"", "CharString", "\"a\"\"b\""),
    // Braces without an entry are a list. Between integers a comma may stand or be left out.
    ("{}", "SequenceOf", "{}"),
    (
        "{1 2, 3}",
        "SequenceOf Integer Integer Integer",
        "{\n  1,\n  2,\n  3\n}",
    ),
    ("{1-2}", "SequenceOf Integer Integer", "{\n  1,\n  -2\n}"),
    // The comma may be left out after integers alone, whatever number follows.
    ("{ 1 2.5 }", "SequenceOf Integer Real", "{\n  1,\n  2.5\n}"),
    // Words need a comma between them, or the first would be a field's name.
    (
        "{TRUE, FALSE}",
        "SequenceOf Boolean Boolean",
        "{\n  TRUE,\n  FALSE\n}",
    ),
    (
        "{ a, NULL }",
        "SequenceOf Enumerated Null",
        "{\n  a,\n  NULL\n}",
    ),
    // A name may stand twice: which one counts is for a type to decide.
    (
        "{ so-very 1, so-very 2 }",
        "Sequence Integer Integer",
        "{\n  so-very 1,\n  so-very 2\n}",
    ),
    // An item of braces may be a choice, whose payload ends at the comma.
    (
        "{ Test1 : 3, test2 : \"x\" }",
        "SequenceOf Choice Choice",
        "{\n  Test1 : 3,\n  test2 : \"x\"\n}",
    ),
    // A choice as the payload of a choice.
    ("a : b : 1", "Choice Choice", "a : b : 1"),
    // Any Unicode white space may follow the whole value.
    ("\tTRUE\u{2003}\u{A0}\n", "Boolean", "TRUE"),
    // Each level is indented by two more blanks, and its closing brace stands under its name.
    (
        "{ a { very { }, nested FALSE } }",
        "Sequence Sequence",
        "{\n  a {\n    very {},\n    nested FALSE\n  }\n}",
    ),
    // A minus belongs to the number after it.
    ("-12", "Integer", "-12"),
    ("red", "Enumerated", "red"),
    ("test1 : 5", "Choice Integer", "test1 : 5"),
    // A text with quotes is printed as it was read.
    ("\"say \"\"hi\"\"\"", "CharString", "\"say \"\"hi\"\"\""),
];

/// Checks a copy of what a text was read as, and the normal form of the copy.
fn assert_copy(
    rt: &impl Abort,
    alloc: Global,
    copy: &AvnValue,
    variants: &str,
    text: &str,
) -> Result<(), Fail> {
    assert_value(rt, alloc, copy, variants, text)?;
    // The normal form prints the same, if as octets in place of whole octets of bits.
    let normal = printed(alloc, normal_form(alloc, copy)?)?;
    assert_text(rt, normal.as_str(), text);
    Ok(())
}

/// Checks what a text was read as, a copy of it, and its normal form.
fn assert_forms(
    rt: &impl Abort,
    alloc: Global,
    value: &AvnValue,
    variants: &str,
    text: &str,
) -> Result<(), Fail> {
    assert_value(rt, alloc, value, variants, text)?;
    let copy = copy_of(alloc, value)?;
    let checked = assert_copy(rt, alloc, &copy, variants, text);
    let_go(copy);
    checked
}

/// Checks what the text of a row of `READ_TEXTS` is read as.
fn assert_read(rt: &impl Abort, alloc: Global, row: &(&str, &str, &str)) -> Result<(), Fail> {
    let value = read(alloc, row.0)?;
    let checked = assert_forms(rt, alloc, &value, row.1, row.2);
    let_go(value);
    checked
}

/// Each text is read as its value, a copy of it is the same, and its normal form prints the same
/// text again. The rows have the expected variants and texts, by the forms that the crate `rasn`
/// reads.
#[test]
fn texts_that_are_read(rt: HostRuntime) -> Result<(), Fail> {
    for row in READ_TEXTS.iter() {
        assert_read(&rt, rt.alloc(), row)?;
    }
    Ok(())
}

/// Returns the text of the error that refuses the text, or else what the text is read as.
fn refusal(alloc: Global, text: &str) -> Result<String, AllocError> {
    match parse_avn(alloc, text) {
        Ok(value) => printed(alloc, value),
        Err(error) => printed(alloc, error),
    }
}

/// Lists texts that are not in the notation, each with the excerpt that its error has.
const REFUSED_TEXTS: [(&str, &str); 19] = [
    // An empty text has nothing to show.
    ("", ""),
    // A whole value is read, and what follows it is more than white space.
    ("TRUE x", " x"),
    ("1 2", " 2"),
    // A digit has to follow a minus.
    ("-", "-"),
    ("- 1", "- 1"),
    // What comes before the fault is a whole value, so the error has what follows it.
    ("1.", "."),
    ("1.2.3", ".3"),
    // A comma stands between two items.
    ("{1,}", "{1,}"),
    ("{,1}", "{,1}"),
    // An item with a name and one without don't stand in one pair of braces.
    ("{ a 1, 2 }", "{ a 1, 2 }"),
    // After a real, a comma has to stand.
    ("{ 1 2.5 3 }", "{ 1 2.5 3 }"),
    // Octets are pairs of digits, bits are 0 and 1, and the letter is a capital.
    ("'0'H", "'0'H"),
    ("'2'B", "'2'B"),
    // Without a letter there is no token.
    ("'01'", "'01'"),
    ("'01'h", "'01'h"),
    // No quote ends the string.
    ("\"a", "\"a"),
    // Between tokens other Unicode white space may not stand.
    ("{\u{A0}1}", "{\u{A0}1}"),
    ("\u{2003}TRUE", "\u{2003}TRUE"),
    // An excerpt begins past the identifiers of choices, and is cut after 20 characters.
    (
        "  a : b :c : {1,} and more than twenty characters",
        "{1,} and more than t",
    ),
];

/// Checks that the text is refused, and that the error has this excerpt.
fn assert_refused(rt: &impl Abort, alloc: Global, text: &str, found: &str) -> Result<(), Fail> {
    let want = format!(in alloc;
        "AVN decoding error: Unexpected token in AVN: {found} (Codec: AVN)"
    )?;
    // The whole error is compared, so that the excerpt is neither longer nor shorter.
    let said = refusal(alloc, text)?;
    assert_text(rt, said.as_str(), want.as_str());
    Ok(())
}

/// Texts that are not in the notation are refused, and the error has an excerpt of at most 20
/// characters from where a value is expected, or all that follows a whole value.
#[test]
fn texts_that_are_refused(rt: HostRuntime) -> Result<(), Fail> {
    for row in REFUSED_TEXTS.iter() {
        assert_refused(&rt, rt.alloc(), row.0, row.1)?;
    }
    Ok(())
}

/// Checks that the text is refused for a token that is unexpected.
fn assert_unexpected_token(rt: &impl Abort, alloc: Global, text: &str) -> Result<(), Fail> {
    let said = refusal(alloc, text)?;
    assert!(rt;
        said.starts_with("AVN decoding error: Unexpected token in AVN: "),
        "{text}"
    );
    Ok(())
}

/// Returns the names of the variants of what the text is read as.
fn kinds_of_text(alloc: Global, text: &str) -> Result<String, Fail> {
    let value = read(alloc, text)?;
    let names = kinds(alloc, &value);
    let_go(value);
    Ok(names?)
}

/// Each front part of a text that has all kinds of tokens is refused, and the whole is read.
/// No front part is a value, since the text is one pair of braces.
#[test]
fn a_text_that_is_cut_short_is_refused(rt: HostRuntime) -> Result<(), Fail> {
    const WHOLE: &str =
        "{ a 1.5, b '01 FF'H, c { -1 2, 3 }, d x : \"q\"\"r\", e {TRUE, y}, f '10'B }";
    let mut text = String::new(rt.alloc());
    for c in WHOLE.chars() {
        assert_unexpected_token(&rt, rt.alloc(), text.as_str())?;
        text.push(c)?;
    }
    // Every character is there now.
    let names = kinds_of_text(rt.alloc(), text.as_str())?;
    assert_text(
        &rt,
        names.as_str(),
        "Sequence Real OctetString SequenceOf Choice SequenceOf BitString",
    );
    Ok(())
}

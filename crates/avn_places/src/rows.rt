//! Texts with the places at which they are no value notation.
use crate::fault_offset;
use std::test::Fail;

/// Lists texts in which a bar stands before what can't stand there.
const FAULTS: [&str; 38] = [
    "|",
    " |?",
    "a |b",
    "a : |",
    "a : b : |}",
    "1 |2",
    "1|.",
    "|-",
    "1.5|.5",
    "TRUE |,",
    "|\"no end",
    "|\"a\"\"",
    "\"a\"\"b\" |c",
    "|'0'H",
    "'0 1'H |'",
    "|'2'B",
    "|'01'C",
    "|'01",
    "{|",
    "{ |,",
    "{ a |",
    "{ a 1, |}",
    "{ a 1 |b 2 }",
    "{ station 7,\n  taken |? }",
    "{ a 1, |2 }",
    "{ 1, |a 2 }",
    "{ 1 2 -3 |a }",
    "{ a : 1 |2 }",
    "{ { 1 } |2 }",
    "{ a, b : |}",
    "{ a { b { c |] } } }",
    "{} \u{2003}|}",
    "{ 1.5 |2 }",
    "{\r\n  a 1,\r\n  b |?\r\n}",
    "'0 1\t0'B |x",
    "|'0 2'B",
    "{ { { { { { { { |?",
    "{{{{{{{{|?",
];

/// Each text is reported at its bar, which is left out.
#[test]
fn faults_are_told_at_their_place(rt: HostRuntime) -> Result<(), Fail> {
    for marked in FAULTS {
        let (front, rest) = marked.split_once('|').unwrap_or((marked, ""));
        let text = format!(in rt.alloc(); "{front}{rest}")?;
        assert_eq!(&rt; fault_offset(rt.alloc(), &text)?, front.len());
    }
    Ok(())
}

/// Lists texts that are value notation.
const TEXTS: [&str; 15] = [
    "a",
    " a : b : {} ",
    "-12",
    "1.5\n",
    "\"a\"\"b\"",
    "'AB 0f'H",
    "''B \u{2003}",
    "{ 1 2, 3 -4 }",
    "{ a, b : 1, { c 2 }, TRUE }",
    "{ a b, c d : e, f { } }",
    "{ a NULL }",
    "{ a-b_c 'AB'H }",
    "{\r\n  a 1\r\n}\r\n",
    "'0 1\r\n0\t'B",
    "{{{{{{{{}}}}}}}}",
];

/// Where the text is value notation, it is passed whole.
#[test]
fn texts_are_passed_whole(rt: HostRuntime) -> Result<(), Fail> {
    for text in TEXTS {
        assert_eq!(&rt; fault_offset(rt.alloc(), text)?, text.len());
    }
    Ok(())
}

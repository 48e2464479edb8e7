//! Tells in words what was expected.
ghost use Rattle.asn_modules_errors.specs.Expectations.{expected_text};
ghost use Rattle.std.specs.Prelude.{◌≡◌};

use asn_modules_grammar::headers::Expected;

/// Returns what may stand at a place, in the words of X.680.
pub(crate) fn expected_words(expected: Expected) -> &'static str
    ensures { result.now ≡ expected_text expected }
{
    match expected {
        Expected::Name => "a name",
        Expected::Closing => "the bracket that closes",
        Expected::Definitions => "DEFINITIONS",
        Expected::Tags => "TAGS",
        Expected::Implied => "IMPLIED",
        Expected::Assignment => "`::=`",
        Expected::Begin => "BEGIN",
        Expected::CommaOrSemicolon => "`,` or `;`",
        Expected::CommaOrFrom => "`,` or FROM",
        Expected::Selection => "SUCCESSORS or DESCENDANTS",
        Expected::Number => "a number",
        Expected::NumberOrName => "a number or a name",
        Expected::Word => "an identifier",
        Expected::Item => "an item or `...`",
        Expected::OpenParen => "`(`",
        Expected::CloseParen => "`)`",
        Expected::CloseBracket => "`]`",
        Expected::OpenBrace => "`{`",
        Expected::CommaOrBrace => "`,` or `}`",
        Expected::CommaOrVersion => "`,` or `]]`",
        Expected::Component => "a component or an alternative",
        Expected::BraceOrOf => "`{`, OF or a size before OF",
        Expected::Of => "OF",
        Expected::String => "STRING",
        Expected::Identifier => "IDENTIFIER",
        Expected::Pdv => "PDV",
        Expected::By => "BY",
        Expected::Syntax => "SYNTAX",
        Expected::Type => "a type",
        Expected::HigherType => "a type at a higher level",
        Expected::Value => "a value",
        Expected::End => "END",
        Expected::NameOrEnd => "an assignment or END",
        Expected::NameOrNothing => "an assignment or the end of the text",
    }
}

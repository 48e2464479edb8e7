//! Tells the parts of ASN.1 that aren't read.
ghost use Rattle.asn_modules_errors.specs.LeftOuts.{is_too_deep, left_out, left_out_text, part_of};
ghost use Rattle.std.specs.Prelude.{◌≡◌, Some};

use asn_lexer::Kind;
use asn_modules_grammar::headers::Expected;
use std::fmt;

/// Names a part of ASN.1 that isn't read.
#[derive(Clone, Copy, Debug, Drop, PartialEq, Eq)]
pub enum LeftOut {
    /// Is selection types (X.680, section 30).
    SelectionTypes,
    /// Is exception specifications (X.680, section 53).
    Exceptions,
    /// Is types that nest beyond the limit.
    DeepNesting,
}

/// Returns whether it is expected that a type ends before it nests deeper.
fn is_too_deep(expected: Expected) -> bool
    ensures { result ≡ is_too_deep expected }
{
    matches!(expected, Expected::HigherType)
}

/// Returns the part that a token of the kind belongs to.
fn part_of(kind: Kind) -> Option<LeftOut>
    ensures { result ≡ part_of kind }
{
    match kind {
        Kind::Less => Some(LeftOut::SelectionTypes),
        Kind::Exclamation => Some(LeftOut::Exceptions),
        _ => None,
    }
}

/// Returns the part of ASN.1 that a token of the kind shows in place of what is expected, if it is
/// one that isn't read. `None` is the end of the text.
pub fn left_out(met: Option<Kind>, expected: Expected) -> Option<LeftOut>
    ensures { result ≡ left_out met expected }
{
    if is_too_deep(expected) {
        return Some(LeftOut::DeepNesting);
    }
    match met {
        Some(kind) => part_of(kind),
        None => None,
    }
}

/// Prints the part's name.
impl fmt::Display for LeftOut {
    ghost output = { λ part. Some (left_out_text part) };

    fn fmt<W: fmt::Write>(&self, f: &mut fmt::Formatter<W>) -> fmt::Result {
        f.write_str(match self {
            LeftOut::SelectionTypes => "selection types",
            LeftOut::Exceptions => "exception specifications",
            LeftOut::DeepNesting => "types nested beyond 64 levels",
        })
    }
}

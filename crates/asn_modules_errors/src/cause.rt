//! Defines why a text of modules is refused at a place.
ghost use Rattle.asn_modules_errors.specs.Causes.{cause_text, rule_text};
ghost use Rattle.std.specs.Prelude.{Some};

use crate::expected::expected_words;
use crate::left_out::LeftOut;
use crate::no_token::NoToken;
use asn_modules_grammar::headers::Expected;
use std::fmt;

/// Names a rule on names that a text breaks.
#[derive(Clone, Copy, Debug, Drop, PartialEq, Eq)]
pub enum NameRule {
    /// A module assigns each name once.
    AssignedTwice,
    /// Modules have names of their own.
    ModuleTwice,
    /// The components, alternatives, items or bits of one list have names of their own.
    ListedTwice,
    /// The items of an ENUMERATED have numbers of their own.
    NumberTwice,
    /// The numbers of extension additions rise (X.680, section 20).
    NumberNotRising,
    /// The bits of a BIT STRING have numbers of their own.
    BitTwice,
    /// The number of a bit isn't negative.
    BitNegative,
    /// What is imported is exported by its module.
    NotExported,
    /// What is imported is assigned or imported by its module.
    NotHeld,
    /// A module imports from others.
    OwnImport,
    /// A type or value that is named is assigned or imported.
    NotAssigned,
    /// The name of a value leads to a value, past other names.
    NoValue,
    /// COMPONENTS OF includes neither too many types nor too many levels of them.
    TooLarge,
}

/// Prints what is wrong with a name.
impl fmt::Display for NameRule {
    ghost output = { λ rule. Some (rule_text rule) };

    fn fmt<W: fmt::Write>(&self, f: &mut fmt::Formatter<W>) -> fmt::Result {
        f.write_str(match self {
            NameRule::AssignedTwice => "is assigned twice in its module",
            NameRule::ModuleTwice => "is the name of two modules",
            NameRule::ListedTwice => "stands twice in its list",
            NameRule::NumberTwice => "has the number of another item",
            NameRule::NumberNotRising => "has a number below that of an addition before it",
            NameRule::BitTwice => "has the number of another bit",
            NameRule::BitNegative => "has a negative number",
            NameRule::NotExported => "isn't exported by its module",
            NameRule::NotHeld => {
                "is neither assigned nor imported by the module that it is imported from"
            }
            NameRule::OwnImport => "is imported by a module from itself",
            NameRule::NotAssigned => "is neither assigned nor imported",
            NameRule::NoValue => "leads to no value",
            NameRule::TooLarge => "is too large for COMPONENTS OF",
        })
    }
}

/// States why a text is refused at a place.
#[derive(Drop)]
pub enum Cause {
    /// What begins there is no token, no white space and no comment.
    NoToken(NoToken),
    /// A token, whose text is `met`, or the end of the text, which is `None`, fits nothing that
    /// may stand there.
    Unexpected {
        /// Is the text of the token.
        met: Option<String>,
        /// Is what may stand there.
        expected: Expected,
    },
    /// A part of ASN.1 stands there that isn't read.
    LeftOut(LeftOut),
    /// This name breaks the rule.
    Name {
        /// Is the rule.
        rule: NameRule,
        /// Is the name.
        name: String,
    },
}

/// Prints a phrase.
impl fmt::Display for Cause {
    ghost output = { λ cause. Some (cause_text cause) };

    fn fmt<W: fmt::Write>(&self, f: &mut fmt::Formatter<W>) -> fmt::Result {
        match self {
            Cause::NoToken(fault) => fault.fmt(f),
            Cause::Unexpected { met, expected } => {
                let words = expected_words(*expected);
                match met {
                    Some(met) => write!(f, "expected {words}, met `{met}`"),
                    None => write!(f, "expected {words}, met the end of the text"),
                }
            }
            Cause::LeftOut(part) => write!(f, "{part} aren't read"),
            Cause::Name { rule, name } => write!(f, "`{name}` {rule}"),
        }
    }
}

/// Prints the same.
impl fmt::Debug for Cause {
    fn fmt<W: fmt::Write>(&self, f: &mut fmt::Formatter<W>) -> fmt::Result {
        fmt::Display::fmt(self, f)
    }
}

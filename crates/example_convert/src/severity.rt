//! Describes an ENUMERATED type.
ghost use Rattle.example_convert.specs.Severity.{severity_item, severity_items};
ghost use Rattle.std.specs.Prelude.{None, refl};

use asn_traits::{Enumerated, EnumeratedKind, OfKind};

/// Is `Severity ::= ENUMERATED { info, warning, critical }`.
#[derive(Clone, Copy, Debug, PartialEq, Eq, Drop)]
pub enum Severity {
    /// Needs no one.
    Info,
    /// Needs someone soon.
    Warning,
    /// Needs someone now.
    Critical,
}

impl OfKind for Severity {
    type Kind = EnumeratedKind;
}

/// Lists the items, and gives the item of each variant and back.
impl Enumerated for Severity {
    const IDENTIFIERS: &'static [&'static str] = &["info", "warning", "critical"];

    const EXTENDED_IDENTIFIERS: Option<&'static [&'static str]> = None;

    ghost items = { severity_items };

    ghost added = { None };

    ghost item = { severity_item };

    fn identifier_table() -> &'static [&'static str] {
        Self::IDENTIFIERS
    }

    fn extended_identifier_table() -> Option<&'static [&'static str]> {
        Self::EXTENDED_IDENTIFIERS
    }

    fn identifier(&self) -> &'static str {
        match self {
            Severity::Info => "info",
            Severity::Warning => "warning",
            Severity::Critical => "critical",
        }
    }

    fn from_identifier(identifier: &str) -> Option<Severity> {
        match identifier {
            "info" => Some(Severity::Info),
            "warning" => Some(Severity::Warning),
            "critical" => Some(Severity::Critical),
            _ => None,
        }
    }

    ghost readable = { refl };
}

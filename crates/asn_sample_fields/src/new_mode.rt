//! Describes `OldMode` in a later version, which has one item more.
ghost use Rattle.asn_sample_fields.specs.NewMode.{new_mode_items, new_mode_added, new_mode_item};
ghost use Rattle.std.specs.Prelude.{Some, refl};

use asn_traits::{Enumerated, EnumeratedKind, OfKind};

/// Is `NewMode ::= ENUMERATED { low, ..., high }`.
#[derive(Clone, Copy, Debug, PartialEq, Eq, Drop)]
pub enum NewMode {
    /// Is the item before the extension marker.
    Low,
    /// Is the item after the extension marker.
    High,
}

/// Is an ENUMERATED type.
impl OfKind for NewMode {
    type Kind = EnumeratedKind;
}

/// Lists the items after the extension marker.
const ADDED_ITEMS: &'static [&'static str] = &["high"];

/// Lists the items, and gives the item of each variant and back.
impl Enumerated for NewMode {
    const IDENTIFIERS: &'static [&'static str] = &["low"];

    const EXTENDED_IDENTIFIERS: Option<&'static [&'static str]> = Some(ADDED_ITEMS);

    ghost items = { new_mode_items };

    ghost added = { Some new_mode_added };

    ghost item = { new_mode_item };

    fn identifier_table() -> &'static [&'static str] {
        Self::IDENTIFIERS
    }

    fn extended_identifier_table() -> Option<&'static [&'static str]> {
        Self::EXTENDED_IDENTIFIERS
    }

    fn identifier(&self) -> &'static str {
        match self {
            NewMode::Low => "low",
            NewMode::High => "high",
        }
    }

    fn from_identifier(identifier: &str) -> Option<NewMode> {
        match identifier {
            "low" => Some(NewMode::Low),
            "high" => Some(NewMode::High),
            _ => None,
        }
    }

    ghost readable = { refl };
}

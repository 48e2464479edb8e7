//! Describes an ENUMERATED type with an extension marker that no item follows yet.
ghost use Rattle.asn_sample_fields.specs.OldMode.{old_mode_items, old_mode_added, old_mode_item};
ghost use Rattle.std.specs.Prelude.{Some, refl};

use asn_traits::{Enumerated, EnumeratedKind, OfKind};

/// Is `OldMode ::= ENUMERATED { low, ... }`.
#[derive(Clone, Copy, Debug, PartialEq, Eq, Drop)]
pub enum OldMode {
    /// Is the item before the extension marker.
    Low,
}

/// Is an ENUMERATED type.
impl OfKind for OldMode {
    type Kind = EnumeratedKind;
}

/// Lists the items after the extension marker.
const ADDED_ITEMS: &'static [&'static str] = &[];

/// Lists the items, and gives the item of each variant and back.
impl Enumerated for OldMode {
    const IDENTIFIERS: &'static [&'static str] = &["low"];

    const EXTENDED_IDENTIFIERS: Option<&'static [&'static str]> = Some(ADDED_ITEMS);

    ghost items = { old_mode_items };

    ghost added = { Some old_mode_added };

    ghost item = { old_mode_item };

    fn identifier_table() -> &'static [&'static str] {
        Self::IDENTIFIERS
    }

    fn extended_identifier_table() -> Option<&'static [&'static str]> {
        Self::EXTENDED_IDENTIFIERS
    }

    fn identifier(&self) -> &'static str {
        match self {
            OldMode::Low => "low",
        }
    }

    fn from_identifier(identifier: &str) -> Option<OldMode> {
        match identifier {
            "low" => Some(OldMode::Low),
            _ => None,
        }
    }

    ghost readable = { refl };
}

//! Describes an ENUMERATED type with an extension marker (X.680, sections 20 and 52). Beside what
//! `simple_enum` has, it lists the items after the marker.
ghost use Rattle.asn_sample_fields.specs.ExtEnum.{ext_enum_items, ext_enum_added, ext_enum_item};
ghost use Rattle.std.specs.Prelude.{Some, refl};

use asn_traits::{Enumerated, EnumeratedKind, OfKind};

/// Is `ExtEnum ::= ENUMERATED { Test1, Test2, ..., Test3 }`.
#[derive(Clone, Copy, Debug, PartialEq, Eq, Drop)]
pub enum ExtEnum {
    /// Is the first item.
    Test1,
    /// Is the second item.
    Test2,
    /// Is the item after the extension marker.
    Test3,
}

/// Is an ENUMERATED type: this gives it the traits that the library has for each of them.
impl OfKind for ExtEnum {
    type Kind = EnumeratedKind;
}

/// Lists the items after the extension marker.
const ADDED_ITEMS: &'static [&'static str] = &["Test3"];

/// Lists the items, and gives the item of each variant and back.
impl Enumerated for ExtEnum {
    const IDENTIFIERS: &'static [&'static str] = &["Test1", "Test2"];

    // `Some` marks the type as extensible, even if it has no additions.
    const EXTENDED_IDENTIFIERS: Option<&'static [&'static str]> = Some(ADDED_ITEMS);

    ghost items = { ext_enum_items };

    ghost added = { Some ext_enum_added };

    ghost item = { ext_enum_item };

    fn identifier_table() -> &'static [&'static str] {
        Self::IDENTIFIERS
    }

    fn extended_identifier_table() -> Option<&'static [&'static str]> {
        Self::EXTENDED_IDENTIFIERS
    }

    // The items before the marker and those after it, in both directions.
    fn identifier(&self) -> &'static str {
        match self {
            ExtEnum::Test1 => "Test1",
            ExtEnum::Test2 => "Test2",
            ExtEnum::Test3 => "Test3",
        }
    }

    fn from_identifier(identifier: &str) -> Option<ExtEnum> {
        match identifier {
            "Test1" => Some(ExtEnum::Test1),
            "Test2" => Some(ExtEnum::Test2),
            "Test3" => Some(ExtEnum::Test3),
            _ => None,
        }
    }

    ghost readable = { refl };
}

//! Describes an ENUMERATED type (X.680, section 20): the sample to copy for one without an
//! extension marker.
ghost use Rattle.asn_sample_fields.specs.SimpleEnum.{simple_enum_items, simple_enum_item};
ghost use Rattle.std.specs.Prelude.{None, refl};

use asn_traits::{Enumerated, EnumeratedKind, OfKind};

/// Is `SimpleEnum ::= ENUMERATED { Test1, Test2 }`.
#[derive(Clone, Copy, Debug, PartialEq, Eq, Drop)]
pub enum SimpleEnum {
    /// Is the first item.
    Test1,
    /// Is the second item.
    Test2,
}

/// Is an ENUMERATED type: this gives it the traits that the library has for each of them.
impl OfKind for SimpleEnum {
    type Kind = EnumeratedKind;
}

/// Lists the items, and gives the item of each variant and back. The numbers of the items play no
/// part, since both notations write identifiers.
impl Enumerated for SimpleEnum {
    const IDENTIFIERS: &'static [&'static str] = &["Test1", "Test2"];

    // `None` means that there is no extension marker.
    const EXTENDED_IDENTIFIERS: Option<&'static [&'static str]> = None;

    // The definitions that contracts cite; the calls below are proved to agree with them.
    ghost items = { simple_enum_items };

    ghost added = { None };

    ghost item = { simple_enum_item };

    // A clause can't name a constant that holds a reference, so a call hands it over.
    fn identifier_table() -> &'static [&'static str] {
        Self::IDENTIFIERS
    }

    fn extended_identifier_table() -> Option<&'static [&'static str]> {
        Self::EXTENDED_IDENTIFIERS
    }

    // The two directions, each proved against the items.
    fn identifier(&self) -> &'static str {
        match self {
            SimpleEnum::Test1 => "Test1",
            SimpleEnum::Test2 => "Test2",
        }
    }

    fn from_identifier(identifier: &str) -> Option<SimpleEnum> {
        match identifier {
            "Test1" => Some(SimpleEnum::Test1),
            "Test2" => Some(SimpleEnum::Test2),
            _ => None,
        }
    }

    // The law that the shape can be read, which is computed.
    ghost readable = { refl };
}

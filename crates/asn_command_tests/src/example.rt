//! The calls that the page on modules shows.
use asn_core::Codec;
use asn_dynamic::convert_part;
use asn_modules::read_modules;
use std::test::Fail;

/// Is the text of a file of modules.
const PARTS: &str = "Parts DEFINITIONS AUTOMATIC TAGS ::= BEGIN \
Bolt ::= SEQUENCE { id INTEGER, size INTEGER DEFAULT 4 } END";

/// A text is converted by a type of a module.
#[test]
fn converts_by_a_module(rt: HostRuntime) -> Result<(), Fail> {
    let alloc = rt.alloc();
    let modules = read_modules(alloc, &[("parts.asn1", PARTS)])?;
    if let Some(place) = modules.find("Parts.Bolt") {
        let text = convert_part(alloc, Codec::Jer, Codec::Avn, place, r#"{"size":4,"id":7}"#)?;
        assert_eq!(rt; text.as_str(), "{\n  id 7\n}");
    }
    Ok(())
}

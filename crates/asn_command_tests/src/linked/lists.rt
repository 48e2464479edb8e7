//! Lists of types that can be read, and lists that can't.
use crate::linked::samples::{chain, pair, tree};
use asn_linked_types::are_linked;
use asn_model::Shape;
use std::test::Fail;

/// Types that name each other within lists, sequences and choices can be read.
#[test]
fn links_types(rt: HostRuntime) -> Result<(), Fail> {
    let alloc = rt.alloc();
    assert!(rt; are_linked(&pair(alloc)?));
    assert!(rt; are_linked(&chain(alloc)?));
    assert!(rt; are_linked(&tree(alloc)?));
    assert!(rt; are_linked(&[]));
    Ok(())
}

/// A name past the types, and a type that is only a name, can't be read.
#[test]
fn refuses_names(rt: HostRuntime) -> Result<(), Fail> {
    let alloc = rt.alloc();
    let mut past = chain(alloc)?;
    past.push(Shape::ListOf(Box::new(alloc, Shape::Back(4))?))?;
    assert!(rt; !are_linked(&past));
    let mut bare = chain(alloc)?;
    bare.push(Shape::Back(0))?;
    assert!(rt; !are_linked(&bare));
    Ok(())
}

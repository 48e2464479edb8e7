//! Makes lists of types that name each other by number.
use asn_core::{OutOfMemory, Tag};
use asn_model::{AlternativeShape, FieldShape, PresenceShape, SeqKind, Shape};
use std::alloc::Global;

/// Returns an optional field with the context tag 0.
fn optional(alloc: Global, name: &str, shape: Shape) -> Result<FieldShape, OutOfMemory> {
    Ok(FieldShape {
        name: String::from_str(alloc, name)?,
        tag: Tag::CONTEXT_0,
        presence: PresenceShape::Optional,
        shape,
    })
}

/// Returns an alternative.
fn alternative(
    alloc: Global,
    identifier: &str,
    tag: Tag,
    shape: Shape,
) -> Result<AlternativeShape, OutOfMemory> {
    Ok(AlternativeShape {
        identifier: String::from_str(alloc, identifier)?,
        tag,
        shape,
    })
}

/// Returns SEQUENCE { name TYPE OPTIONAL }, where the type is that of the number.
fn holder(alloc: Global, name: &str, number: u32) -> Result<Shape, OutOfMemory> {
    let mut fields = Vec::new(alloc);
    fields.push(optional(alloc, name, Shape::Back(number))?)?;
    Ok(Shape::Seq {
        kind: SeqKind::Sequence,
        fields,
        added: None,
    })
}

/// Returns the types 0, SEQUENCE { b 1 OPTIONAL }, and 1, SEQUENCE { a 0 OPTIONAL }.
pub fn pair(alloc: Global) -> Result<Vec<Shape>, OutOfMemory> {
    let mut types = Vec::new(alloc);
    types.push(holder(alloc, "b", 1)?)?;
    types.push(holder(alloc, "a", 0)?)?;
    Ok(types)
}

/// Returns the types 0, SEQUENCE OF 1, 1, SEQUENCE OF 2, and 2, BOOLEAN.
pub fn chain(alloc: Global) -> Result<Vec<Shape>, OutOfMemory> {
    let mut types = Vec::new(alloc);
    types.push(Shape::ListOf(Box::new(alloc, Shape::Back(1))?))?;
    types.push(Shape::ListOf(Box::new(alloc, Shape::Back(2))?))?;
    types.push(Shape::Bool)?;
    Ok(types)
}

/// Returns the types 0, CHOICE { leaf BOOLEAN, list 1 }, and 1, SEQUENCE OF 0.
pub fn tree(alloc: Global) -> Result<Vec<Shape>, OutOfMemory> {
    let mut alternatives = Vec::new(alloc);
    alternatives.push(alternative(alloc, "leaf", Tag::CONTEXT_0, Shape::Bool)?)?;
    alternatives.push(alternative(alloc, "list", Tag::CONTEXT_1, Shape::Back(1))?)?;
    let mut types = Vec::new(alloc);
    types.push(Shape::Choice {
        alternatives,
        added: None,
    })?;
    types.push(Shape::ListOf(Box::new(alloc, Shape::Back(0))?))?;
    Ok(types)
}

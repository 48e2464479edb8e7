//! Shows a type that a program holds as data, as docs/FROM-A-PROGRAM.md does.
use crate::checks::{MEMORY, UNREADABLE, assert_printed, assert_true, let_go, refusal};
use asn_core::{Codec, OutOfMemory, Tag, WholeNumber};
use asn_dynamic::{DynError, DynValue, Step, fits, read, write};
use asn_model::{FieldShape, PresenceShape, SeqKind, Shape, is_readable};
use std::alloc::Global;
use std::process::Abort;
use std::test::Fail;

/// Returns INTEGER (0..255).
fn byte() -> Shape {
    Shape::Int {
        least: 0,
        greatest: 255,
        width: 8,
    }
}

/// Returns a required field.
fn field(alloc: Global, name: &str, tag: Tag, shape: Shape) -> Result<FieldShape, OutOfMemory> {
    Ok(FieldShape {
        name: String::from_str(alloc, name)?,
        tag,
        presence: PresenceShape::Required,
        shape,
    })
}

/// Returns SEQUENCE { id INTEGER (0..255), parts SET OF INTEGER (0..255), ... }.
fn report(alloc: Global) -> Result<Shape, OutOfMemory> {
    let parts = Shape::SetOf(Box::new(alloc, byte())?);
    let mut fields = Vec::new(alloc);
    fields.push(field(alloc, "id", Tag::CONTEXT_0, byte())?)?;
    fields.push(field(alloc, "parts", Tag::CONTEXT_1, parts)?)?;
    Ok(Shape::Seq {
        kind: SeqKind::Sequence,
        fields,
        added: Some(Vec::new(alloc)),
    })
}

/// Sets the first field of a SEQUENCE to a number.
fn set_first(value: &mut DynValue, magnitude: u128) {
    if let DynValue::Members(members) = value {
        if let Some(first) = members.first_mut() {
            first.1 = Some(DynValue::Int(WholeNumber {
                negative: false,
                magnitude,
            }));
        }
    }
}

/// A value is read, changed and written. One that the type doesn't have is told by `fits`.
#[test]
fn reads_changes_and_writes(rt: HostRuntime) -> Result<(), Fail> {
    let alloc = rt.alloc();
    let shape = report(alloc)?;
    assert!(rt; is_readable(&shape));
    if is_readable(&shape) {
        let mut value = read(alloc, Codec::Jer, &shape, r#"{"parts":[10,2],"id":7}"#)?;
        set_first(&mut value, 300);
        assert!(rt; !fits(&shape, &value));
        set_first(&mut value, 8);
        assert!(rt; fits(&shape, &value));
        if fits(&shape, &value) {
            let text = write(alloc, Codec::Avn, &shape, &value)?;
            let expected = "{\n  id 8,\n  parts {\n    10,\n    2\n  }\n}";
            assert_eq!(rt; text.as_str(), expected);
        }
    }
    Ok(())
}

/// Returns whether the steps lead to the first element of the field `parts`.
fn leads_to_the_first_part(path: &[Step]) -> bool {
    match path {
        [Step::Field(name), Step::Element(0)] => name.as_str() == "parts",
        _ => false,
    }
}

/// Checks that the error has the path to the first part, and prints this text.
fn assert_at_the_first_part(rt: &impl Abort, alloc: Global, error: DynError, want: &str) {
    assert_true(rt, leads_to_the_first_part(error.path.as_slice()));
    assert_printed(rt, alloc, error, want);
}

/// A refusal has the path to what is refused.
#[test]
fn refuses_with_the_path(rt: HostRuntime) {
    let alloc = rt.alloc();
    let shape = report(alloc).expect(&rt, MEMORY);
    if !is_readable(&shape) {
        rt.panic(UNREADABLE)
    }
    let answer = read(alloc, Codec::Jer, &shape, r#"{"id":7,"parts":[300]}"#);
    let_go(shape);
    assert_at_the_first_part(
        &rt,
        alloc,
        refusal(&rt, answer),
        "Error when decoding field `parts`: Actual integer larger than expected 8 bits \
         (Codec: JER) (Codec: JER)",
    );
}

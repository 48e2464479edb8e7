//! Gives each integer type of the language its kind.
use crate::{IntegerKind, OfKind};

impl OfKind for u8 {
    type Kind = IntegerKind;
}

impl OfKind for u16 {
    type Kind = IntegerKind;
}

impl OfKind for u32 {
    type Kind = IntegerKind;
}

impl OfKind for u64 {
    type Kind = IntegerKind;
}

impl OfKind for u128 {
    type Kind = IntegerKind;
}

impl OfKind for usize {
    type Kind = IntegerKind;
}

impl OfKind for i8 {
    type Kind = IntegerKind;
}

impl OfKind for i16 {
    type Kind = IntegerKind;
}

impl OfKind for i32 {
    type Kind = IntegerKind;
}

impl OfKind for i64 {
    type Kind = IntegerKind;
}

impl OfKind for i128 {
    type Kind = IntegerKind;
}

impl OfKind for isize {
    type Kind = IntegerKind;
}

//! Has macros for the rows of a constant table of fields.

/// Makes a field that has to be present, for a constant table: `required!(0, TAG, "name")`.
#[macro_export]
macro_rules! required {
    ($index:expr, $tag:expr, $name:expr) => {
        $crate::Field {
            index: $index,
            tag: $tag,
            tag_tree: $crate::TagTree::Leaf($tag),
            presence: $crate::Presence::Required,
            name: $name,
        }
    };
}

/// Makes a field that may be absent, for a constant table: `optional!(1, TAG, "name")`.
#[macro_export]
macro_rules! optional {
    ($index:expr, $tag:expr, $name:expr) => {
        $crate::Field {
            index: $index,
            tag: $tag,
            tag_tree: $crate::TagTree::Leaf($tag),
            presence: $crate::Presence::Optional,
            name: $name,
        }
    };
}

/// Makes a field that is absent where it has its default, for a constant table:
/// `with_default!(1, TAG, "name")`.
#[macro_export]
macro_rules! with_default {
    ($index:expr, $tag:expr, $name:expr) => {
        $crate::Field {
            index: $index,
            tag: $tag,
            tag_tree: $crate::TagTree::Leaf($tag),
            presence: $crate::Presence::Default,
            name: $name,
        }
    };
}

//! Makes the shapes of types without parts.
ghost use Rattle.asn_model.specs.ShapeView.{shape_view};
ghost use Rattle.asn_modules_names.specs.lookup.Homes.{home_view};
ghost use Rattle.asn_modules_grammar.specs.notation.View.{items_view};
ghost use Rattle.asn_modules_types.specs.Leaves.{enumerated_shape, integer_shape, item_names};
ghost use Rattle.asn_modules_types.specs.Leaves.{leaf_shape};
ghost use Rattle.asn_modules_types.specs.Linked.{is_extensible};
ghost use Rattle.std.specs.Prelude.{◌≡◌, IfOk, map, string_bytes};

use crate::fault::LinkFault;
use crate::scope::{Scope, is_extensible};
use crate::words::name_in;
use asn_linked_types::no_values;
use asn_model::{Alphabet, Shape};
use asn_modules_grammar::notation::{Closed, Item, Leaf};
use std::alloc::{AllocError, Global};

/// Returns the shape of INTEGER.
pub fn integer_shape() -> Shape
    ensures { shape_view result ≡ integer_shape }
{
    Shape::Int {
        least: i128::MIN,
        greatest: i128::MAX as u128,
        width: i128::BITS,
    }
}

/// Returns the shape of a type without parts.
pub fn leaf_shape(alloc: Global, leaf: Leaf) -> Shape
    ensures { shape_view result ≡ leaf_shape leaf }
{
    match leaf {
        Leaf::Boolean => Shape::Bool,
        Leaf::Null => Shape::Null,
        Leaf::OctetString => Shape::Octets,
        Leaf::ObjectIdentifier => Shape::Oid,
        Leaf::Text(alphabet) => Shape::Str { alphabet },
        Leaf::Bmp => Shape::Bmp,
        Leaf::Teletex => Shape::Str {
            alphabet: Alphabet::General,
        },
        Leaf::UtcTime => Shape::Utc,
        Leaf::GeneralizedTime => Shape::Gen,
        Leaf::Date => Shape::Day,
        Leaf::Closed(Closed::Any) => Shape::Any,
        Leaf::Closed(_) => no_values(alloc),
    }
}

/// Returns the identifiers of the items in this text.
///
/// # Errors
///
/// Where memory runs out.
fn item_names(alloc: Global, text: &str, items: &[Item]) -> Result<Vec<String>, AllocError>
    ensures { IfOk result (λ names.
        map string_bytes names.items ≡ item_names text.now items.now) }
{
    let mut names = Vec::new(alloc);
    for item in items {
        names.push(name_in(alloc, text, item.name)?)?;
    }
    Ok(names)
}

/// Returns the shape of an ENUMERATED of these items, and of `added` after the extension marker,
/// if there is one.
///
/// # Errors
///
/// Where memory runs out.
pub fn enumerated_shape(
    scope: &Scope<'_, '_, '_>,
    items: &Vec<Item>,
    added: &Option<Vec<Item>>,
) -> Result<Shape, AllocError>
    ensures { IfOk result (λ s. shape_view s
        ≡ enumerated_shape (home_view scope.now.home).source.text
        (is_extensible (home_view scope.now.home).parsed.header)
        (items_view items.now added.now)) }
{
    let alloc = scope.names.alloc;
    let text = scope.home.source.text;
    let items = item_names(alloc, text, items)?;
    let added = match added {
        Some(added) => Some(item_names(alloc, text, added)?),
        None => {
            if is_extensible(scope) {
                Some(Vec::new(alloc))
            } else {
                None
            }
        }
    };
    Ok(Shape::Enum { items, added })
}

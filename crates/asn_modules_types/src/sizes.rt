//! Reads sizes.
ghost use Rattle.asn_model.specs.ShapeView.{shape_view};
ghost use Rattle.asn_modules_types.specs.Known.{KnowsNames, scope_view};
ghost use Rattle.asn_modules_types.specs.Sizes.{fixed_by, shape_fixed, size_end, size_of, sized};
ghost use Rattle.std.specs.Prelude.{◌≡◌, ℕ};

use crate::numbers::size_in;
use crate::scope::{Scope, number_at};
use asn_lexer::{Kind, Token};
use asn_linked_types::no_values;
use asn_model::Shape;
use asn_modules_grammar::notation::{Size, Value};
use std::alloc::Global;

/// Returns the number as a size, if it isn't negative and has at most 64 bits.
fn size_of(number: i128) -> Option<usize>
    ensures { result ≡ size_of number }
{
    usize::try_from(number).ok()
}

/// Returns what an end of a size is, if it is a number or the name of a value that leads to one.
fn size_end(scope: &Scope<'_, '_, '_>, token: Token) -> Option<usize>
    requires known { KnowsNames scope.now.names.now }
    ensures { (limit : ℕ) → result ≡ size_end (scope_view limit scope.now) token.kind token }
{
    match token.kind {
        Kind::Number => size_in(scope.home.source.text, token),
        _ => match number_at(scope, Value::Word(token)) {
            Some(number) => size_of(number),
            None => None,
        },
    }
}

/// Returns what the size says: `Some` of the number that it admits alone, or `None` inside where it
/// admits several, and `None` where an end of it isn't known.
fn fixed_by(scope: &Scope<'_, '_, '_>, size: Size) -> Option<Option<usize>>
    requires known { KnowsNames scope.now.names.now }
    ensures { (limit : ℕ) → result ≡ fixed_by (scope_view limit scope.now) size }
{
    let low = size_end(scope, size.low)?;
    let high = size_end(scope, size.high)?;
    if low == high {
        Some(Some(low))
    } else {
        Some(None)
    }
}

/// Returns the shape by what a size says. Only that of a BIT STRING has a size, and no values where
/// an end of it isn't known.
fn shape_fixed(alloc: Global, fixed: Option<Option<usize>>, shape: Shape) -> Shape
    ensures { shape_view result ≡ shape_fixed fixed (shape_view shape) }
{
    match fixed {
        Some(Some(size)) => match shape {
            Shape::Bits { .. } => Shape::Bits { fixed: Some(size) },
            shape => shape,
        },
        Some(None) => shape,
        None => match shape {
            Shape::Bits { .. } => no_values(alloc),
            shape => shape,
        },
    }
}

/// Returns the shape under these sizes, the innermost first. The outermost one that admits one
/// number alone fixes that of a BIT STRING, which has no values where an end of one isn't known.
pub fn sized(scope: &Scope<'_, '_, '_>, sizes: &[Size], shape: Shape) -> Shape
    requires known { KnowsNames scope.now.names.now }
    ensures { (limit : ℕ)
        → shape_view result ≡ sized (scope_view limit scope.now) sizes.now (shape_view shape) }
{
    let mut shape = shape;
    for size in sizes {
        shape = shape_fixed(scope.names.alloc, fixed_by(scope, *size), shape);
    }
    shape
}

//! Makes types without tags of what they hold.
ghost use Rattle.asn_model.specs.ShapeView.{kind_view};
ghost use Rattle.asn_modules_grammar.specs.notation.Notation as spec;
ghost use Rattle.asn_modules_grammar.specs.notation.Notation.{may_have_components};
ghost use Rattle.asn_modules_grammar.specs.notation.View.{members_view, notation_view};
ghost use Rattle.asn_modules_reader.specs.Arguments.{arguments_view};
ghost use Rattle.asn_modules_reader.specs.Views.{base_view};
ghost use Rattle.std.specs.Prelude.{◌≡◌, IfOk};

use asn_lexer::Token;
use asn_model::SeqKind;
use asn_modules_grammar::notation::{Base, Closed, Leaf, Members, Notation};
use std::alloc::{AllocError, Global};

/// Returns the SEQUENCE or SET of the members.
pub(crate) fn fields_of(kind: SeqKind, members: Members) -> Base
    ensures { base_view result
        ≡ spec.members (kind_view kind) (spec.members_of (members_view members)) }
{
    match kind {
        SeqKind::Sequence => Base::Sequence(members),
        SeqKind::Set => Base::Set(members),
    }
}

/// Returns the SEQUENCE OF or SET OF elements of the type.
///
/// # Errors
///
/// Where memory runs out.
pub(crate) fn list_of(alloc: Global, kind: SeqKind, element: Notation) -> Result<Base, AllocError>
    ensures { IfOk result (λ base.
        base_view base ≡ spec.list_of (kind_view kind) (notation_view element)) }
{
    let element = Box::new(alloc, element)?;
    match kind {
        SeqKind::Sequence => Ok(Base::SequenceOf(element)),
        SeqKind::Set => Ok(Base::SetOf(element)),
    }
}

/// Returns the type of this name with these actual parameters; `None` where some are no types.
/// `home` is the name of the module, where it is stated.
pub(crate) fn instance_or(
    home: Option<Token>,
    name: Token,
    arguments: Option<Vec<Notation>>,
) -> Base
    ensures { base_view result ≡ spec.instance_or home name (arguments_view arguments) }
{
    match arguments {
        Some(arguments) => Base::Instance {
            module: home,
            name,
            arguments,
        },
        None => Base::Leaf(Leaf::Closed(Closed::Parameterized)),
    }
}

/// Returns whether the type may have components: whether it is a SEQUENCE or SET, or a name.
pub(crate) fn may_have_components(notation: &Notation) -> bool
    ensures { result ≡ may_have_components (notation_view notation.now) }
{
    match &notation.base {
        Base::Sequence(_) | Base::Set(_) | Base::Reference { .. } | Base::Instance { .. } => true,
        Base::Leaf(Leaf::Closed(Closed::Parameterized)) => true,
        Base::Leaf(_) | Base::Integer(_) | Base::BitString(_) | Base::Enumerated { .. } => false,
        Base::SequenceOf(_) | Base::SetOf(_) | Base::Choice(_) => false,
    }
}

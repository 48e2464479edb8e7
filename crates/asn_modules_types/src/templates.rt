//! Finds types with parameters, and what stands in the places of those.
ghost use Rattle.asn_modules_names.specs.lookup.Homes.{home_view};
ghost use Rattle.asn_modules_names.specs.declared.lookup.sort.Sort.TheVariants.{Templates, Types};
ghost use Rattle.asn_modules_grammar.specs.notation.View.{notation_view};
ghost use Rattle.asn_modules_reader.specs.Views.{base_view};
ghost use Rattle.asn_modules_types.specs.Known.{KnowsNames, assigned_view, binding_view};
ghost use Rattle.asn_modules_types.specs.Known.{sources_of};
ghost use Rattle.asn_modules_types.specs.Linked.{takes, template_named};
ghost use Rattle.asn_modules_types.specs.Templates.{argument_number, base_number, bindings};
ghost use Rattle.asn_modules_types.specs.Templates.{is_named};
ghost use Rattle.asn_modules_types.specs.Values.{found_in};
ghost use Rattle.std.specs.Prelude.{◌≡◌, IfOk, map, option_map};

use crate::assigned::{Assigned, assigned_at, notation_of, parameters_of};
use crate::names::Names;
use crate::scope::{Binding, Scope, assigned_number};
use crate::values::found_in;
use asn_lexer::Token;
use asn_modules_grammar::notation::{Base, Notation};
use asn_modules_rules::included::is_small;
use std::alloc::{AllocError, Global};

/// Returns the number of the type with parameters of the name, or `None` where it is missing.
fn template_number(
    scope: &Scope<'_, '_, '_>,
    module_name: Option<Token>,
    name: Token,
) -> Option<usize>
    requires known { KnowsNames scope.now.names.now }
    ensures { result ≡ found_in Templates (sources_of scope.now.names.now) scope.now.number
        (home_view scope.now.home) module_name name }
{
    found_in(
        scope.names.template_index,
        scope.number,
        scope.home,
        module_name,
        name,
    )
}

/// Returns the type with parameters that a name stands for in the module, or `None` where it is
/// missing.
#[tactic(auto, using(crate::proofs::Bound::template_steps))]
pub fn template_named<'s, 't>(
    scope: &Scope<'_, 's, 't>,
    module_name: Option<Token>,
    name: Token,
) -> Option<Assigned<'s, 't>>
    requires known { KnowsNames scope.now.names.now }
    ensures { option_map assigned_view result ≡ template_named (sources_of scope.now.names.now)
        scope.now.number (home_view scope.now.home) module_name name }
{
    match template_number(scope, module_name, name) {
        Some(number) => assigned_at(scope.names.templates, number),
        None => None,
    }
}

/// Returns whether the type is a name alone.
fn is_named(notation: &Notation) -> bool
    ensures { result ≡ is_named (notation_view notation.now) }
{
    match &notation.base {
        Base::Reference { .. } => true,
        Base::Leaf(_) | Base::Integer(_) | Base::BitString(_) | Base::Enumerated { .. } => false,
        Base::Sequence(_) | Base::Set(_) | Base::SequenceOf(_) | Base::SetOf(_) => false,
        Base::Choice(_) | Base::Instance { .. } => false,
    }
}

/// Returns whether the type takes so many actual parameters: it has as many parameters, is no name,
/// and counts as little as a type with actual parameters may.
pub fn takes(names: &Names<'_, '_>, count: usize, template: Assigned<'_, '_>) -> bool
    requires known { KnowsNames names.now }
    ensures { result ≡ takes (sources_of names.now) count (assigned_view template.entry) }
{
    let notation = notation_of(template.assignment);
    parameters_of(template.assignment).len() == count
        && (!is_named(notation)
            && is_small(names.type_index, template.number, template.home, notation))
}

/// Returns the number of the type that this one is the name of, or `None` where it is none.
fn base_number(scope: &Scope<'_, '_, '_>, base: &Base) -> Option<usize>
    requires known { KnowsNames scope.now.names.now }
    ensures { result ≡ base_number (found_in Types (sources_of scope.now.names.now)
        scope.now.number (home_view scope.now.home)) (base_view base.now) }
{
    match base {
        Base::Reference { module, name } => assigned_number(scope, *module, *name),
        Base::Leaf(_) | Base::Integer(_) | Base::BitString(_) | Base::Enumerated { .. } => None,
        Base::Sequence(_) | Base::Set(_) | Base::SequenceOf(_) | Base::SetOf(_) => None,
        Base::Choice(_) | Base::Instance { .. } => None,
    }
}

/// Returns the number of the type that an actual parameter is the name of, or `None` where it is
/// none.
fn argument_number(scope: &Scope<'_, '_, '_>, argument: &Notation) -> Option<usize>
    requires known { KnowsNames scope.now.names.now }
    ensures { result ≡ argument_number (found_in Types (sources_of scope.now.names.now)
        scope.now.number (home_view scope.now.home)) (notation_view argument.now) }
{
    match argument.sizes.as_slice() {
        [] => base_number(scope, &argument.base),
        [_size, ..] => None,
    }
}

/// Returns what stands in the places of these parameters where a type with actual ones stands here.
///
/// # Errors
///
/// Where memory runs out.
#[tactic(auto, using(crate::proofs::Bound::binding_steps))]
pub fn bindings_of(
    alloc: Global,
    scope: &Scope<'_, '_, '_>,
    parameters: &[Token],
    arguments: &[Notation],
) -> Result<Vec<Binding>, AllocError>
    requires known { KnowsNames scope.now.names.now }
    ensures { IfOk result (λ bound. map binding_view bound.items
        ≡ bindings (found_in Types (sources_of scope.now.names.now) scope.now.number
        (home_view scope.now.home)) parameters.now (map notation_view arguments.now)) }
{
    let mut bound = Vec::new(alloc);
    let mut unbound = parameters;
    let mut actual = arguments;
    'bindings: loop {
        let [parameter, more @ ..] = unbound else {
            return Ok(bound);
        };
        let [argument, others @ ..] = actual else {
            return Ok(bound);
        };
        bound.push(Binding {
            name: *parameter,
            number: argument_number(scope, argument),
        })?;
        unbound = more;
        actual = others;
    }
}

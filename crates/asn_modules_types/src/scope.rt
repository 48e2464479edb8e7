//! Says where a type stands.
ghost use Rattle.asn_modules_names.specs.lookup.Homes.{home_view};
ghost use Rattle.asn_modules_names.specs.declared.lookup.sort.Sort.TheVariants.{Types};
ghost use Rattle.asn_modules_types.specs.Known.{KnowsNames, binding_view, finder};
ghost use Rattle.asn_modules_types.specs.Known.{included_number, scope_view, sources_of};
ghost use Rattle.asn_modules_types.specs.Known.{stated_view};
ghost use Rattle.asn_modules_types.specs.Linked.{is_extensible};
ghost use Rattle.asn_modules_types.specs.Numbers.{number_at};
ghost use Rattle.asn_modules_types.specs.Templates.{bound};
ghost use Rattle.asn_modules_types.specs.Values.{found_in, value_in};
ghost use Rattle.std.specs.Prelude.{◌≡◌, ℕ, map, option_map};

use crate::limits::NAME_LIMIT;
use crate::names::Names;
use crate::values::{StatedValue, found_in, number_from};
use asn_lexer::Token;
use asn_modules_errors::text_of;
use asn_modules_grammar::notation::Value;
use asn_modules_names::lookup::Home;

/// Is the name of a parameter, with what stands in its place.
#[derive(Clone, Copy, Drop)]
pub struct Binding {
    /// Is the name.
    pub name: Token,
    /// Is the number of the type in its place; `None` where no name of a known type is.
    pub number: Option<usize>,
}

/// Is where a type stands: in a module.
#[derive(Clone, Copy, Drop)]
pub struct Scope<'a, 's, 't> {
    /// Holds what names stand for.
    pub names: &'a Names<'s, 't>,
    /// Is the number of the module.
    pub number: usize,
    /// Is the module in its text.
    pub home: Home<'s, 't>,
    /// States whether it stands within a type with parameters.
    pub within: bool,
    /// Lists what stands in the places of those.
    pub bindings: &'a [Binding],
}

/// Returns what stands in the place of the name, where it is that of one of these parameters.
fn bound_in(text: &str, bindings: &[Binding], name: Token) -> Option<Binding>
    ensures { option_map (λ b. b.number) result
        ≡ bound text.now (map binding_view bindings.now) name }
{
    let wanted = text_of(text, name);
    for binding in bindings {
        if text_of(text, binding.name) == wanted {
            return Some(*binding);
        }
    }
    None
}

/// Returns the number of the type of the name that the module assigns or imports, or `None` where
/// it is missing.
pub fn assigned_number(
    scope: &Scope<'_, '_, '_>,
    module_name: Option<Token>,
    name: Token,
) -> Option<usize>
    requires known { KnowsNames scope.now.names.now }
    ensures { result ≡ found_in Types (sources_of scope.now.names.now) scope.now.number
        (home_view scope.now.home) module_name name }
{
    found_in(
        scope.names.type_index,
        scope.number,
        scope.home,
        module_name,
        name,
    )
}

/// Returns the number of the type that a name stands for here, or `None` where it is missing.
pub fn find(scope: &Scope<'_, '_, '_>, module_name: Option<Token>, name: Token) -> Option<usize>
    requires known { KnowsNames scope.now.names.now }
    ensures { result ≡ finder (sources_of scope.now.names.now) scope.now.number
        (home_view scope.now.home) scope.now.within (map binding_view scope.now.bindings.now)
        module_name name }
{
    if !scope.within {
        return assigned_number(scope, module_name, name);
    }
    match module_name {
        Some(_) => assigned_number(scope, module_name, name),
        None => match bound_in(scope.home.source.text, scope.bindings, name) {
            Some(binding) => binding.number,
            None => assigned_number(scope, module_name, name),
        },
    }
}

/// Returns the number of the type of a name after COMPONENTS OF here, or `None` where it is
/// missing, or stands within a type with parameters.
pub fn included_number(
    scope: &Scope<'_, '_, '_>,
    module_name: Option<Token>,
    name: Token,
) -> Option<usize>
    requires known { KnowsNames scope.now.names.now }
    ensures { result ≡ included_number (sources_of scope.now.names.now) scope.now.number
        (home_view scope.now.home) scope.now.within module_name name }
{
    if scope.within {
        return None;
    }
    assigned_number(scope, module_name, name)
}

/// Returns the value as it stands here.
pub fn stated_here<'s, 't>(scope: &Scope<'_, 's, 't>, value: Value) -> StatedValue<'s, 't>
    ensures { stated_view result ≡ value_in scope.now.number (home_view scope.now.home) value }
{
    StatedValue {
        number: scope.number,
        home: scope.home,
        value,
    }
}

/// Returns the number that the value here leads to, or `None` where it leads to none.
pub fn number_at(scope: &Scope<'_, '_, '_>, value: Value) -> Option<i128>
    requires known { KnowsNames scope.now.names.now }
    ensures { (limit : ℕ) → result ≡ number_at (scope_view limit scope.now) value }
{
    number_from(scope.names, NAME_LIMIT, stated_here(scope, value))
}

/// Returns whether each list of the module without an extension marker has one.
pub fn is_extensible(scope: &Scope<'_, '_, '_>) -> bool
    ensures { result ≡ is_extensible (home_view scope.now.home).parsed.header }
{
    match &scope.home.parsed.header {
        Some(header) => header.opening.extensible,
        None => false,
    }
}

//! Holds the types of modules.
ghost use Rattle.asn_linked.specs.Places.{place_shape};
ghost use Rattle.asn_linked_types.specs.Linked.{are_linked};
ghost use Rattle.asn_model.specs.Readable.{is_readable};
ghost use Rattle.asn_model.specs.ShapeView.{shape_view};
ghost use Rattle.asn_modules.specs.Missing.{missing_view};
ghost use Rattle.asn_modules.specs.Names.{number_named, type_name_view};
ghost use Rattle.std.specs.Prelude.{◌≡◌, ◌<◌, [], IfSome, MatchOption, None, Some, length, map, true};

use crate::empty::is_without_values;
use crate::missing::MissingModule;
use crate::names::{TypeName, number_named};
use asn_linked::Place;
use asn_model::Shape;

/// Holds the types that modules assign, by which values are read and written.
#[derive(Drop)]
pub struct Modules {
    /// Lists the names of the types.
    names: Vec<TypeName>,
    /// Lists the types, each at the place of its name: `Shape::Back` of a number names the type of
    /// that number.
    types: Vec<Shape>,
    /// Lists the modules that are imported from and aren't given.
    missing: Vec<MissingModule>,
    /// By each type, values can be read and written.
    ghost linked: { are_linked (map shape_view types.items) ≡ true },
    /// Each type has a name.
    ghost named: { length names.items ≡ length types.items },
}

/// Finds types.
impl Modules {
    ghost use Rattle.asn_modules.specs.Modules.{has_no_values, modules_view, shape_named};

    /// Returns the types with these names, and the modules that aren't given.
    pub(crate) fn new(
        names: Vec<TypeName>,
        types: Vec<Shape>,
        missing: Vec<MissingModule>,
    ) -> Modules
        requires linked { are_linked (map shape_view types.items) ≡ true }
        requires named { length names.items ≡ length types.items }
        ensures names { result.names ≡ names }
        ensures types { result.types ≡ types }
        ensures missing { result.missing ≡ missing }
    {
        Modules {
            names,
            types,
            missing,
        }
    }

    /// Returns the names of the types, in the order in which they are assigned.
    pub fn names(&self) -> &[TypeName]
        ensures { map type_name_view result.now ≡ (modules_view self.now).names }
    {
        self.names.as_slice()
    }

    /// Returns the types, each at the place of its name in `names`. `Shape::Back` of a number names
    /// the type of that number.
    pub fn types(&self) -> &[Shape]
        ensures types { map shape_view result.now ≡ (modules_view self.now).types }
        // So values can be read and written by each of them.
        ensures linked { are_linked (map shape_view result.now) ≡ true }
    {
        self.types.as_slice()
    }

    /// Returns the modules that are imported from and aren't given, each once, in the order in
    /// which they are named after FROM. Nothing is known of what they assign.
    pub fn missing(&self) -> &[MissingModule]
        ensures { map missing_view result.now ≡ (modules_view self.now).missing }
    {
        self.missing.as_slice()
    }

    /// Returns the number of the type that the text names, in the order of `names`: by its name, if
    /// one type alone has that, or by the name of its module, a point and its name, as
    /// `PKIX1.Certificate`. It is `None` where no type is named so, or several are.
    pub fn number(&self, name: &str) -> Option<usize>
        ensures number { result ≡ number_named (modules_view self.now).names name.now }
        ensures below { IfSome result (λ number.
            number < length (modules_view self.now).types) }
    {
        number_named(self.names.as_slice(), name)
    }

    /// Returns the type that the text names, as `number` has it.
    pub fn find(&self, name: &str) -> Option<Place<'_>>
        ensures found { MatchOption result (shape_named (modules_view self.now) name.now ≡ None)
            (λ place. shape_named (modules_view self.now) name.now
            ≡ Some (place_shape [] place)) }
        // So values can be read and written by it.
        ensures readable { IfSome result (λ place. is_readable (place_shape [] place) ≡ true) }
    {
        match self.number(name) {
            Some(number) => Place::of_type(self.types.as_slice(), number as u32),
            None => None,
        }
    }

    /// Returns whether the type of the number, in the order of `names`, is the one without values,
    /// which stands for each type that isn't read. `false` where there is no such type.
    pub fn has_no_values(&self, number: usize) -> bool
        ensures { result ≡ has_no_values (modules_view self.now) number }
    {
        match self.types.get(number) {
            Some(shape) => is_without_values(shape),
            None => false,
        }
    }
}

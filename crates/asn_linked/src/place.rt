//! Shows the places in types that name each other by number. A number is opened as a loop of its
//! type where it isn't open, and means that loop where it is.
ghost use Rattle.asn_linked.specs.Places.{named_shape, open_numbers, place_shape};
ghost use Rattle.asn_linked_types.specs.Expansion.{expansion, linked_shape, place_of};
ghost use Rattle.asn_model.specs.ShapeView.{shape_view};
ghost use Rattle.asn_parts.specs.Chain.{bodies_of};
ghost use Rattle.asn_parts.specs.Parts.{IsKind};
ghost use Rattle.std.specs.Prelude.{◌≡◌, ◌<◌, ◌≤◌, IfSome, List, MatchOption, [], length, map};
ghost use Rattle.std.specs.Prelude.{nat_lt};

use asn_linked_types::TYPE_LIMIT;
use asn_model::Shape;
use asn_parts::{Loops, Part, PartAlternative, PartField, PartKind};

/// Shows a type, or a part of one, in a list of types that name each other by number:
/// `Shape::Back` of a number names the type of that number.
#[derive(Clone, Copy)]
pub struct Place<'t> {
    /// Lists the types.
    types: &'t [Shape],
    /// Counts the types.
    count: u32,
    /// Is the number of the type, or of the one in which the part stands.
    number: u32,
    /// Holds the part, or nothing where a whole type is meant.
    part: Option<&'t Shape>,
}

impl<'t> Place<'t> {
    /// Returns the place of the type of a number, or `None` where there is no such type.
    pub fn of_type(types: &'t [Shape], number: u32) -> Option<Place<'t>>
        requires { length types.now < TYPE_LIMIT }
        ensures there { MatchOption result (length types.now ≤ number) (λ _.
            number < length types.now) }
        ensures is { IfSome result (λ place. place_shape [] place
            ≡ expansion (map shape_view types.now) (length types.now) [] number) }
    {
        if number as usize >= types.len() {
            return None;
        }
        Some(Place {
            types,
            count: types.len() as u32,
            number,
            part: None,
        })
    }

    /// Returns the place of a part of the type in which this place is.
    fn within(&self, part: &'t Shape) -> Place<'t>
        ensures { (around : List Place) → place_shape around result
            ≡ linked_shape (named_shape around self.now) (shape_view part.now) }
    {
        Place {
            types: self.types,
            count: self.count,
            number: self.number,
            part: Some(part),
        }
    }

    /// Returns the kind of what a number names at this place, within these loops.
    fn named(&self, number: u32, around: &Loops<'_, Place<'t>>) -> PartKind<Place<'t>>
        ensures { IsKind place_shape (bodies_of around.now) result
            (named_shape (bodies_of around.now) self.now number) }
    {
        if let Some(place) = open_place(around, number, self.count) {
            return PartKind::Back(place);
        }
        if !are_fewer(around, self.count) {
            return PartKind::Enumerated;
        }
        match self.types.get(number as usize) {
            Some(body) => PartKind::Loop(Place {
                types: self.types,
                count: self.count,
                number,
                part: Some(body),
            }),
            None => PartKind::Enumerated,
        }
    }

    /// Returns the kind of a part of the type in which this place is, within these loops.
    fn kind_of(&self, part: &'t Shape, around: &Loops<'_, Place<'t>>) -> PartKind<Place<'t>>
        ensures { IsKind place_shape (bodies_of around.now) result
            (linked_shape (named_shape (bodies_of around.now) self.now) (shape_view part.now)) }
    {
        match part.kind(&Loops::Outermost) {
            PartKind::Leaf(leaf) => PartKind::Leaf(leaf),
            PartKind::Enumerated => PartKind::Enumerated,
            PartKind::Sequence => PartKind::Sequence,
            PartKind::Set => PartKind::Set,
            PartKind::ListOf(element) => PartKind::ListOf(self.within(element)),
            PartKind::SetOf(element) => PartKind::SetOf(self.within(element)),
            PartKind::Table(entry) => PartKind::Table(self.within(entry)),
            PartKind::Choice => PartKind::Choice,
            // A loop stands for a type without values.
            PartKind::Loop(_) => PartKind::Enumerated,
            PartKind::Back(number) => self.named(number, around),
        }
    }
}

/// Shows the parts of a type, and opens the types that they name.
impl<'t> Part for Place<'t> {
    ghost use Rattle.asn_linked.specs.Places.{left_at, open_numbers, part_view, place_shape};
    ghost use Rattle.asn_linked.specs.Places.{types_at};
    ghost use Rattle.asn_linked_types.proofs.Seen.{identifiers-alike, names-alike};
    ghost use Rattle.std.specs.Prelude.{[]};

    ghost shape = { place_shape };

    fn kind(&self, around: &Loops<'_, Place<'t>>) -> PartKind<Place<'t>> {
        match self.part {
            Some(part) => self.kind_of(part, around),
            None => self.named(self.number, around),
        }
    }

    fn field_count(&self) -> usize {
        match self.part {
            Some(part) => part.field_count(),
            None => 0,
        }
    }

    fn root_count(&self) -> usize {
        match self.part {
            Some(part) => part.root_count(),
            None => 0,
        }
    }

    fn field(&self, place: usize) -> PartField<'_, Place<'t>> {
        match &self.part {
            Some(part) => {
                let field = part.field(place);
                PartField {
                    name: field.name,
                    tag: field.tag,
                    presence: field.presence,
                    part: self.within(field.part),
                    is_addition: field.is_addition,
                }
            }
            None => unreachable!(),
        }
    }

    fn alternative_count(&self) -> usize {
        match self.part {
            Some(part) => part.alternative_count(),
            None => 0,
        }
    }

    fn alternative(&self, place: usize) -> Option<PartAlternative<'_, Place<'t>>> {
        match &self.part {
            Some(part) => match part.alternative(place) {
                Some(alternative) => Some(PartAlternative {
                    identifier: alternative.identifier,
                    part: self.within(alternative.part),
                }),
                None => None,
            },
            None => None,
        }
    }

    fn has_item(&self, identifier: &str) -> bool {
        match self.part {
            Some(part) => part.has_item(identifier),
            None => false,
        }
    }

    fn item_count(&self) -> usize {
        match self.part {
            Some(part) => part.item_count(),
            None => 0,
        }
    }

    ghost same_names = { λ around place. names-alike (types_at place) (left_at around place)
        (open_numbers place.count around) (left_at [] place) (open_numbers place.count [])
        (part_view place.number place.part) };

    ghost same_identifiers = { λ around place. identifiers-alike (types_at place)
        (left_at around place) (open_numbers place.count around) (left_at [] place)
        (open_numbers place.count []) (part_view place.number place.part) };
}

/// Returns the place of the innermost of so many loops that is of the type of the number, or `None`
/// where none is. The innermost has place 0.
fn open_place(around: &Loops<'_, Place<'_>>, number: u32, count: u32) -> Option<u32>
    ensures found { result ≡ place_of (open_numbers count (bodies_of around.now)) number }
    ensures below { IfSome result (λ place. place < count) }
{
    match around {
        Loops::Outermost => None,
        Loops::Within { body, outer } => {
            if count == 0 {
                return None;
            }
            if body.number == number {
                return Some(0);
            }
            match open_place(outer, number, count - 1) {
                Some(place) => Some(place + 1),
                None => None,
            }
        }
    }
}

/// Returns whether fewer loops than these are around.
fn are_fewer(around: &Loops<'_, Place<'_>>, count: u32) -> bool
    ensures { result ≡ nat_lt (length (bodies_of around.now)) count }
{
    match around {
        Loops::Outermost => count > 0,
        Loops::Within { outer, .. } => count > 0 && are_fewer(outer, count - 1),
    }
}

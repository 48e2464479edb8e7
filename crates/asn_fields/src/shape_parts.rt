//! Puts the shapes of a type's parts together, for its call `shape`: one call a field or
//! alternative, in the order of the type.
ghost use Rattle.asn_model.specs.Shape.{Shape as AbstractShape, SeqKind as AbstractKind};
ghost use Rattle.asn_model.specs.Shape.{Fields as AbstractFields, FieldAdditions};
ghost use Rattle.asn_model.specs.Shape.{Presence as AbstractPresence, Alternatives};
ghost use Rattle.asn_model.specs.Shape.{AlternativeAdditions, closed_seq, closed_choice};
ghost use Rattle.asn_model.specs.ShapeView.{added_field_views, alternative_views, field_views};
ghost use Rattle.asn_model.specs.ShapeView.{kind_view, shape_view};
ghost use Rattle.asn_model.specs.ShapeView.{with_last_field, with_last_alternative, plain_view};
ghost use Rattle.asn_model.specs.ShapeView.{presence_view};
ghost use Rattle.std.specs.Prelude.{◌≡◌, IfOk, OnOk, map, option_map, string_bytes};

use asn_core::{OutOfMemory, Tag};
use asn_model::{AlternativeShape, FieldShape, Plain, PresenceShape, SeqKind, Shape};
use asn_types::AsnType;
use std::alloc::Global;

/// Collects the fields of a SEQUENCE or SET, in order.
#[derive(Drop)]
pub struct FieldShapes {
    /// Allocates the names and the shapes.
    alloc: Global,
    /// Holds the fields so far.
    pub items: Vec<FieldShape>,
}

/// Adds fields, and makes a shape of them.
impl FieldShapes {
    /// Returns a list of no field. It takes no memory.
    pub fn new(alloc: Global) -> FieldShapes
        ensures { field_views result.items.items ≡ AbstractFields.no_fields }
    {
        FieldShapes {
            alloc,
            items: Vec::new(alloc),
        }
    }

    /// Adds a field of type `T`, which has to be present, behind the others.
    ///
    /// # Errors
    ///
    /// `OutOfMemory` alone.
    pub fn required<T: AsnType>(&mut self, name: &str, tag: Tag) -> Result<(), OutOfMemory>
        ensures { OnOk result (field_views self.new.items.items
            ≡ with_last_field (field_views self.old.items.items) name.now tag
            AbstractPresence.required T.shape_of) }
    {
        self.push::<T>(name, tag, PresenceShape::Required)
    }

    /// Adds a field of type `T`, which may be absent, behind the others.
    ///
    /// # Errors
    ///
    /// `OutOfMemory` alone.
    pub fn optional<T: AsnType>(&mut self, name: &str, tag: Tag) -> Result<(), OutOfMemory>
        ensures { OnOk result (field_views self.new.items.items
            ≡ with_last_field (field_views self.old.items.items) name.now tag
            AbstractPresence.optional T.shape_of) }
    {
        self.push::<T>(name, tag, PresenceShape::Optional)
    }

    /// Adds a field of type `T`, which may be absent, behind the others, with the value that stands
    /// for it then.
    ///
    /// # Errors
    ///
    /// `OutOfMemory` alone.
    pub fn with_default<T: AsnType>(
        &mut self,
        name: &str,
        tag: Tag,
        default: Plain,
    ) -> Result<(), OutOfMemory>
        ensures { OnOk result (field_views self.new.items.items
            ≡ with_last_field (field_views self.old.items.items) name.now tag
            (AbstractPresence.default (plain_view default)) T.shape_of) }
    {
        self.push::<T>(name, tag, PresenceShape::Default(default))
    }

    /// Adds a field of this shape, which has to be present, behind the others.
    ///
    /// # Errors
    ///
    /// `OutOfMemory` alone.
    pub fn required_of(&mut self, name: &str, tag: Tag, shape: Shape) -> Result<(), OutOfMemory>
        ensures { OnOk result (field_views self.new.items.items
            ≡ with_last_field (field_views self.old.items.items) name.now tag
            AbstractPresence.required (shape_view shape)) }
    {
        self.push_of(name, tag, PresenceShape::Required, shape)
    }

    /// Adds a field of type `T` behind the others, with a copy of its name and with the shape that
    /// its type gives.
    ///
    /// # Errors
    ///
    /// `OutOfMemory` alone.
    fn push<T: AsnType>(
        &mut self,
        name: &str,
        tag: Tag,
        presence: PresenceShape,
    ) -> Result<(), OutOfMemory>
        ensures { OnOk result (field_views self.new.items.items
            ≡ with_last_field (field_views self.old.items.items) name.now tag
            (presence_view presence) T.shape_of) }
    {
        let shape = T::shape(self.alloc)?;
        self.push_of(name, tag, presence, shape)
    }

    /// Adds a field of this shape behind the others, with a copy of its name.
    ///
    /// # Errors
    ///
    /// `OutOfMemory` alone.
    fn push_of(
        &mut self,
        name: &str,
        tag: Tag,
        presence: PresenceShape,
        shape: Shape,
    ) -> Result<(), OutOfMemory>
        ensures { OnOk result (field_views self.new.items.items
            ≡ with_last_field (field_views self.old.items.items) name.now tag
            (presence_view presence) (shape_view shape)) }
    {
        let name = String::from_str(self.alloc, name)?;
        self.items.push(FieldShape {
            name,
            tag,
            presence,
            shape,
        })?;
        Ok(())
    }

    /// Returns the SEQUENCE of these fields, without an extension marker. It takes no memory.
    pub fn sequence(self) -> Shape
        ensures { shape_view result ≡ closed_seq (field_views self.items.items) }
    {
        self.of_kind(SeqKind::Sequence, None)
    }

    /// Returns the SEQUENCE of these fields, with `added` after the extension marker. It takes no
    /// memory.
    pub fn extensible_sequence(self, added: FieldShapes) -> Shape
        ensures { shape_view result ≡ AbstractShape.seq AbstractKind.sequence
            (field_views self.items.items)
            (FieldAdditions.extended_fields (field_views added.items.items)) }
    {
        self.of_kind(SeqKind::Sequence, Some(added.items))
    }

    /// Returns the SET of these fields, without an extension marker. It takes no memory.
    pub fn set(self) -> Shape
        ensures { shape_view result ≡ AbstractShape.seq AbstractKind.set
            (field_views self.items.items) FieldAdditions.closed_fields }
    {
        self.of_kind(SeqKind::Set, None)
    }

    /// Returns the SET of these fields, with `added` after the extension marker. It takes no
    /// memory.
    pub fn extensible_set(self, added: FieldShapes) -> Shape
        ensures { shape_view result ≡ AbstractShape.seq AbstractKind.set
            (field_views self.items.items)
            (FieldAdditions.extended_fields (field_views added.items.items)) }
    {
        self.of_kind(SeqKind::Set, Some(added.items))
    }

    /// Returns the SEQUENCE or SET of these fields, with `added` after the extension marker, if
    /// there is one.
    fn of_kind(self, kind: SeqKind, added: Option<Vec<FieldShape>>) -> Shape
        ensures { shape_view result ≡ AbstractShape.seq (kind_view kind)
            (field_views self.items.items) (added_field_views added) }
    {
        Shape::Seq {
            kind,
            fields: self.items,
            added,
        }
    }
}

/// Collects the alternatives of a CHOICE, in order.
#[derive(Drop)]
pub struct AlternativeShapes {
    /// Allocates the identifiers and the shapes.
    alloc: Global,
    /// Holds the alternatives so far.
    pub items: Vec<AlternativeShape>,
}

/// Adds alternatives, and makes a shape of them.
impl AlternativeShapes {
    /// Returns a list of no alternative. It takes no memory.
    pub fn new(alloc: Global) -> AlternativeShapes
        ensures { alternative_views result.items.items ≡ Alternatives.no_alternatives }
    {
        AlternativeShapes {
            alloc,
            items: Vec::new(alloc),
        }
    }

    /// Adds an alternative of type `T` behind the others.
    ///
    /// # Errors
    ///
    /// `OutOfMemory` alone.
    pub fn alternative<T: AsnType>(&mut self, identifier: &str, tag: Tag) -> Result<(), OutOfMemory>
        ensures { OnOk result (alternative_views self.new.items.items
            ≡ with_last_alternative (alternative_views self.old.items.items) identifier.now tag
            T.shape_of) }
    {
        let shape = T::shape(self.alloc)?;
        self.alternative_of(identifier, tag, shape)
    }

    /// Adds an alternative of this shape behind the others.
    ///
    /// # Errors
    ///
    /// `OutOfMemory` alone.
    pub fn alternative_of(
        &mut self,
        identifier: &str,
        tag: Tag,
        shape: Shape,
    ) -> Result<(), OutOfMemory>
        ensures { OnOk result (alternative_views self.new.items.items
            ≡ with_last_alternative (alternative_views self.old.items.items) identifier.now tag
            (shape_view shape)) }
    {
        let identifier = String::from_str(self.alloc, identifier)?;
        self.items.push(AlternativeShape {
            identifier,
            tag,
            shape,
        })?;
        Ok(())
    }

    /// Returns the CHOICE of these alternatives, without an extension marker. It takes no memory.
    pub fn choice(self) -> Shape
        ensures { shape_view result ≡ closed_choice (alternative_views self.items.items) }
    {
        let AlternativeShapes { alloc: _, items } = self;
        Shape::Choice {
            alternatives: items,
            added: None,
        }
    }

    /// Returns the CHOICE of these alternatives, with `added` after the extension marker. It takes
    /// no memory.
    pub fn extensible_choice(self, added: AlternativeShapes) -> Shape
        ensures { shape_view result ≡ AbstractShape.choice (alternative_views self.items.items)
            (AlternativeAdditions.extended_alternatives (alternative_views added.items.items)) }
    {
        let AlternativeShapes { alloc: _, items } = self;
        let AlternativeShapes {
            alloc: _,
            items: added,
        } = added;
        Shape::Choice {
            alternatives: items,
            added: Some(added),
        }
    }
}

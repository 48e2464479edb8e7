//! Lists the names of fields and alternatives as codecs take them.

use crate::Part;
use asn_names::NameList;

/// Lists the fields of a SEQUENCE in their order.
#[derive(Clone, Copy)]
pub struct FieldNames<P> {
    /// Shows the SEQUENCE.
    pub part: P,
}

/// Lists them as the part does.
impl<P: Part> NameList for FieldNames<P> {
    ghost use Rattle.asn_coding.specs.Tables.{numbered};
    ghost use Rattle.asn_model.specs.Components.{component_names};
    ghost use Rattle.asn_parts.specs.Listed.{fields_in};
    ghost use Rattle.std.specs.Prelude.{[]};

    ghost rows = { λ names. numbered 0 (component_names (fields_in (P.shape [] names.part))) };

    fn count(&self) -> usize {
        self.part.field_count()
    }

    fn name(&self, place: usize) -> &str {
        self.part.field(place).name
    }

    fn index(&self, place: usize) -> usize {
        place
    }

    fn constant(&self, _place: usize) -> Option<&'static str> {
        None
    }
}

/// Lists the fields of a SET in the order in which they are read.
#[derive(Drop)]
pub struct FieldsByTag<P> {
    /// Shows the SET.
    pub part: P,
    /// Holds the places of the fields in that order.
    pub order: Vec<usize>,
}

/// Lists them by their places. A place past the fields has an empty name.
impl<P: Part> NameList for FieldsByTag<P> {
    ghost use Rattle.asn_parts.specs.Names.{rows_at};
    ghost use Rattle.asn_model.specs.Components.{component_names};
    ghost use Rattle.asn_parts.specs.Listed.{fields_in};
    ghost use Rattle.std.specs.Prelude.{[]};

    ghost rows = { λ names.
        rows_at (component_names (fields_in (P.shape [] names.part))) names.order.items };

    fn count(&self) -> usize {
        self.order.len()
    }

    fn name(&self, place: usize) -> &str {
        let field = self.order[place];
        if field < self.part.field_count() {
            self.part.field(field).name
        } else {
            ""
        }
    }

    fn index(&self, place: usize) -> usize {
        self.order[place]
    }

    fn constant(&self, _place: usize) -> Option<&'static str> {
        None
    }
}

/// Lists the alternatives of a CHOICE in their order.
#[derive(Clone, Copy)]
pub struct AlternativeNames<P> {
    /// Shows the CHOICE.
    pub part: P,
}

/// Lists them as the part does.
impl<P: Part> NameList for AlternativeNames<P> {
    ghost use Rattle.asn_coding.specs.Tables.{numbered};
    ghost use Rattle.asn_model.specs.Shape.{identifiers};
    ghost use Rattle.asn_parts.specs.Listed.{alternatives_in};
    ghost use Rattle.std.specs.Prelude.{[]};

    ghost rows = { λ names. numbered 0 (identifiers (alternatives_in (P.shape [] names.part))) };

    fn count(&self) -> usize {
        self.part.alternative_count()
    }

    fn name(&self, place: usize) -> &str {
        match self.part.alternative(place) {
            Some(alternative) => alternative.identifier,
            None => unreachable!(),
        }
    }

    fn index(&self, place: usize) -> usize {
        place
    }

    fn constant(&self, _place: usize) -> Option<&'static str> {
        None
    }
}

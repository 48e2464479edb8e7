//! The printed text of a value.
ghost use Rattle.std.specs.Prelude.{◌≡◌};
ghost use Rattle.std.specs.Fmt.{WritesOnOk};
ghost use Rattle.avn_grammar.specs.Tree.{sequence, sequence_of};
ghost use Rattle.avn_grammar.specs.Print.{print};
ghost use Rattle.avn_nodes.specs.Levels.{depth_of};
ghost use Rattle.avn_value.specs.View.{tree_of, list_trees, fields_trees};

use crate::value::AvnValue;
use avn_nodes::print_parts::{
    Levels, begin_field, begin_row, write_bit_string, write_close, write_octets, write_oid,
    write_text,
};
use std::fmt;

/// Writes a value below open braces.
#[cycle(print)]
#[tactic(auto, unfolding(avn_grammar::specs::Print::print))]
fn print_at<W: fmt::Write>(
    value: &AvnValue,
    levels: &Levels<'_>,
    f: &mut fmt::Formatter<W>,
) -> fmt::Result
    ensures { WritesOnOk W.write_str_gives f.old result
        (print (depth_of levels.now) (tree_of value.now)) f.new }
{
    match value {
        AvnValue::Boolean(true) => f.write_str("TRUE"),
        AvnValue::Boolean(false) => f.write_str("FALSE"),
        AvnValue::Null => f.write_str("NULL"),
        AvnValue::Integer(text) => f.write_str(text.as_str()),
        AvnValue::Real(text) => f.write_str(text.as_str()),
        AvnValue::Enumerated(identifier) => f.write_str(identifier.as_str()),
        AvnValue::OctetString(octets) => write_octets(octets, f),
        AvnValue::BitString { bytes, bit_length } => write_bit_string(bytes, *bit_length, f),
        AvnValue::Oid(arcs) => write_oid(arcs, f),
        AvnValue::CharString(text) => write_text(text.as_str(), f),
        AvnValue::Sequence(fields) => print_fields(fields, levels, f),
        AvnValue::SequenceOf(list) => print_list(list, levels, f),
        AvnValue::Choice { identifier, value } => {
            f.write_str(identifier.as_str())?;
            f.write_str(" : ")?;
            print_at(value, levels, f)
        }
    }
}

/// Writes the values of a list in braces, a row for each.
#[cycle(print)]
fn print_list<W: fmt::Write>(
    list: &Vec<AvnValue>,
    levels: &Levels<'_>,
    f: &mut fmt::Formatter<W>,
) -> fmt::Result
    ensures { WritesOnOk W.write_str_gives f.old result
        (print (depth_of levels.now) (sequence_of (list_trees list.now.items))) f.new }
{
    let under = Levels::Under(&*levels);
    f.write_str("{")?;
    for (row, item) in list.iter().enumerate() {
        begin_row(row, levels, f)?;
        print_at(item, &under, f)?;
    }
    write_close(list.len(), levels, f)
}

/// Writes the fields of a sequence in braces, a row for each that is present.
#[cycle(print)]
fn print_fields<W: fmt::Write>(
    fields: &Vec<(String, Option<AvnValue>)>,
    levels: &Levels<'_>,
    f: &mut fmt::Formatter<W>,
) -> fmt::Result
    ensures { WritesOnOk W.write_str_gives f.old result
        (print (depth_of levels.now) (sequence (fields_trees fields.now.items))) f.new }
{
    let under = Levels::Under(&*levels);
    let mut row: usize = 0;
    f.write_str("{")?;
    for (name, slot) in fields.iter() {
        match slot {
            Some(value) => {
                begin_field(row, name.as_str(), levels, f)?;
                print_at(value, &under, f)?;
                row += 1;
            }
            None => {}
        }
    }
    write_close(row, levels, f)
}

impl fmt::Display for AvnValue {
    ghost use Rattle.std.specs.Prelude.{Some};
    ghost use Rattle.avn_grammar.specs.Print.{print};
    ghost use Rattle.avn_value.specs.View.{tree_of};

    ghost output = { λ value. Some (print 0 (tree_of value)) };

    fn fmt<W: fmt::Write>(&self, f: &mut fmt::Formatter<W>) -> fmt::Result {
        print_at(self, &Levels::Root, f)
    }
}

//! Prints the value at a node, from the nodes themselves.
ghost use Rattle.std.specs.Prelude.{◌≡◌, [], Some, IfOk, string_bytes};
ghost use Rattle.std.specs.Fmt.{WritesOnOk};
ghost use Rattle.avn_grammar.specs.Print.{print};
ghost use Rattle.avn_nodes.specs.Levels.{depth_of};
ghost use Rattle.avn_nodes.specs.NodeViews.{kind_of};
ghost use Rattle.avn_nodes.specs.Subtrees.{HasTree, tree_from};

use crate::node_kind::NodeKind;
use crate::nodes::Nodes;
use crate::print_parts::{
    Levels, begin_field, begin_row, write_bit_string, write_close, write_octets, write_oid,
    write_text,
};
use asn_core::OutOfMemory;
use std::alloc::Global;
use std::fmt;

/// Writes the value at a node below open braces. Each node within it is visited once, and no memory
/// is taken.
#[cycle(nodes)]
#[tactic(auto, unfolding(avn_grammar::specs::Print::print))]
fn print_node<W: fmt::Write>(
    nodes: &Nodes,
    node: usize,
    levels: &Levels<'_>,
    f: &mut fmt::Formatter<W>,
) -> fmt::Result
    requires { HasTree nodes.now.nodes node }
    ensures { WritesOnOk W.write_str_gives f.old result
        (print (depth_of levels.now) (tree_from nodes.now.nodes node)) f.new }
{
    match nodes.kind(node) {
        NodeKind::Boolean(true) => f.write_str("TRUE"),
        NodeKind::Boolean(false) => f.write_str("FALSE"),
        NodeKind::Null => f.write_str("NULL"),
        NodeKind::Integer => f.write_str(nodes.text(node)),
        NodeKind::Real => f.write_str(nodes.text(node)),
        NodeKind::Enumerated => f.write_str(nodes.text(node)),
        NodeKind::OctetString => write_octets(nodes.octets(node), f),
        NodeKind::BitString => write_bit_string(nodes.octets(node), nodes.bit_length(node), f),
        NodeKind::Oid => write_oid(nodes.arcs(node), f),
        NodeKind::CharString => write_text(nodes.text(node), f),
        NodeKind::Sequence => print_fields(nodes, node, levels, f),
        NodeKind::SequenceOf => print_list(nodes, node, levels, f),
        NodeKind::Choice => {
            let _count = nodes.len();
            let payload = node + 1;
            f.write_str(nodes.name(payload))?;
            f.write_str(" : ")?;
            print_node(nodes, payload, levels, f)
        }
        NodeKind::Absent => unreachable!(),
    }
}

/// Writes the values of a list in braces, a row for each.
#[cycle(nodes)]
fn print_list<W: fmt::Write>(
    nodes: &Nodes,
    node: usize,
    levels: &Levels<'_>,
    f: &mut fmt::Formatter<W>,
) -> fmt::Result
    requires lists { HasTree nodes.now.nodes node }
    requires list { kind_of (Some (tree_from nodes.now.nodes node)) ≡ NodeKind.SequenceOf }
    ensures { WritesOnOk W.write_str_gives f.old result
        (print (depth_of levels.now) (tree_from nodes.now.nodes node)) f.new }
{
    let end = nodes.end(node);
    let under = Levels::Under(&*levels);
    let mut child = node + 1;
    let mut row: usize = 0;
    f.write_str("{")?;
    'children: while child < end {
        begin_row(row, levels, f)?;
        print_node(nodes, child, &under, f)?;
        row += 1;
        child = nodes.end(child);
    }
    write_close(row, levels, f)
}

/// Writes the fields of a sequence in braces, a row for each that is present.
#[cycle(nodes)]
fn print_fields<W: fmt::Write>(
    nodes: &Nodes,
    node: usize,
    levels: &Levels<'_>,
    f: &mut fmt::Formatter<W>,
) -> fmt::Result
    requires lists { HasTree nodes.now.nodes node }
    requires sequence { kind_of (Some (tree_from nodes.now.nodes node)) ≡ NodeKind.Sequence }
    ensures { WritesOnOk W.write_str_gives f.old result
        (print (depth_of levels.now) (tree_from nodes.now.nodes node)) f.new }
{
    let end = nodes.end(node);
    let under = Levels::Under(&*levels);
    let mut child = node + 1;
    let mut row: usize = 0;
    f.write_str("{")?;
    'children: while child < end {
        match nodes.kind(child) {
            NodeKind::Absent => {}
            _ => {
                begin_field(row, nodes.name(child), levels, f)?;
                print_node(nodes, child, &under, f)?;
                row += 1;
            }
        }
        child = nodes.end(child);
    }
    write_close(row, levels, f)
}

impl Nodes {
    /// Returns the printed text of the value at a node.
    ///
    /// # Errors
    ///
    /// `OutOfMemory` where memory is refused.
    pub fn print(&self, alloc: Global, node: usize) -> Result<String, OutOfMemory>
        requires { HasTree self.now.nodes node }
        ensures { IfOk result (λ text.
            string_bytes text ≡ print 0 (tree_from self.now.nodes node)) }
    {
        self.print_into(String::new(alloc), node)
    }

    /// Puts the printed text of the value at a node into an empty text, which may have room for it.
    ///
    /// # Errors
    ///
    /// `OutOfMemory` where memory is refused.
    pub(crate) fn print_into(&self, empty: String, node: usize) -> Result<String, OutOfMemory>
        requires empty { string_bytes empty ≡ [] }
        requires tree { HasTree self.now.nodes node }
        ensures { IfOk result (λ text.
            string_bytes text ≡ print 0 (tree_from self.now.nodes node)) }
    {
        let mut f = fmt::Formatter::new(empty);
        match print_node(self, node, &Levels::Root, &mut f) {
            Ok(()) => Ok(f.into_inner()),
            Err(_) => Err(OutOfMemory),
        }
    }
}

//! A value of the notation as a table of nodes, which contracts see as its tree.
ghost use Rattle.std.specs.Prelude.{◌≡◌, ◌≢◌, Some, ◌<◌, ◌≤◌, ◌+◌, ◌*◌, ℕ, List, length, IfOk};
ghost use Rattle.std.specs.Prelude.{IfErr, string_bytes, []};
ghost use Rattle.std.specs.Str.{chars};
ghost use Rattle.asn_fault.specs.Failure.{Cause, failure_of};
ghost use Rattle.avn_grammar.specs.Depth.{ExceedsDepth};
ghost use Rattle.avn_grammar.specs.Grammar.{ParsesWhole};
ghost use Rattle.avn_grammar.specs.Print.{print};
ghost use Rattle.avn_grammar.specs.Tree.{Tree, sequence, sequence_of};
ghost use Rattle.avn_grammar.specs.ParseFailure.{ParseFailure};
ghost use Rattle.avn_cursor.specs.Ahead.{LooksAtMost};
ghost use Rattle.avn_value.specs.Answer.{Explains, IsTable, IsRefusal};
ghost use Rattle.avn_value.specs.View.{tree_of, list_trees, fields_trees};
ghost use Rattle.avn_nodes.specs.NodeViews.{kind_of, text_of, octets_of, bit_length_of, arcs_of};
ghost use Rattle.avn_nodes.specs.Forest.{tree_of_nodes};
ghost use Rattle.avn_nodes.specs.NodeLists.{extended, no_nodes};
ghost use Rattle.avn_nodes.specs.Preorder.{node_at, tree_at, choice_with, node_count};
ghost use Rattle.avn_nodes.specs.Preorder.{preorder, slot_descendants};

use crate::parse::read_whole;
use crate::put::put_value;
use crate::value::AvnValue;
use asn_core::{OutOfMemory, Scan};
use asn_fault::DecodeError;
use avn_cursor::Cursor;
use avn_grammar::limits::{GREATEST_LEVEL_LIMIT, LOOKS_PER_CHARACTER};
use avn_nodes::{NodeKind, Nodes};
use std::alloc::Global;
use std::marker::Model;
use std::mem;

/// A value of the notation as its nodes in preorder. A node is named by its index. The first node
/// within a node is the next one, and the one after that stands at the first one's `end`.
#[derive(Drop)]
pub struct NodeTable {
    /// The nodes, the first of them that of the whole value.
    nodes: Nodes,
}

impl Model for NodeTable {
    ghost use Rattle.std.specs.Prelude.{◌≡◌, []};
    ghost use Rattle.avn_grammar.specs.Tree.{Tree};
    ghost use Rattle.avn_nodes.specs.TreeCode.{tree_code};

    ghost Value = { Tree };

    ghost coded = { tree_code };

    ghost use Rattle.avn_nodes.specs.NodeViews.{node_views};
    ghost use Rattle.avn_nodes.specs.Forest.{tree_of_nodes};
    ghost use Rattle.avn_nodes.specs.Preorder.{preorder};

    ghost view = { λ t. tree_of_nodes t.nodes.nodes };

    ghost invariant = { λ t. t.nodes.nodes
        ≡ node_views 0 (preorder [] (tree_of_nodes t.nodes.nodes)) };
}

impl NodeTable {
    /// Reads the value that the whole text of the scan is, in the ASN.1 value notation (X.680),
    /// where no value is looked for at a level above the limit. White space may follow it. What
    /// the scan counts rises by at most `LOOKS_PER_CHARACTER` for each character, and as many more,
    /// whatever the answer and the limit.
    ///
    /// # Errors
    ///
    /// Of the codec AVN: `UnexpectedToken` where no value is read and none is looked for too deep,
    /// with the first `EXCERPT_LENGTH` characters of what is not read, or where more than white
    /// space follows the value, with all that follows it; `ExceedsMaxParseDepth` where a value is
    /// looked for too deep; and `OutOfMemory`, also where the table would have more nodes or text
    /// than 32 bits count.
    pub fn parse(alloc: Global, scan: &mut Scan<'_>, limit: usize) -> Result<NodeTable, DecodeError>
        requires { limit ≤ GREATEST_LEVEL_LIMIT }
        ensures text { scan.new.text ≡ scan.old.text }
        ensures rises { scan.old.looks ≤ scan.new.looks }
        ensures looks { scan.new.looks
            ≤ scan.old.looks + LOOKS_PER_CHARACTER * (length (chars scan.old.text) + 1) }

        ensures ok { IfOk result (λ table. ParsesWhole limit (chars scan.old.text) table) }
        ensures err { IfErr result (λ error.
            Explains limit (chars scan.old.text) (failure_of error)) }

        // Each of the two errors comes exactly where it says, and a table else, memory aside.
        ensures reads { (tree : Tree) → ParsesWhole limit (chars scan.old.text) tree
            → IsTable tree result }
        ensures unread { (found : List ℕ) → ParseFailure limit (chars scan.old.text) found
            → IsRefusal (Cause.unexpected_token found) result }
        ensures deep { ExceedsDepth limit 0 (chars scan.old.text)
            → IsRefusal Cause.exceeds_max_parse_depth result }
    {
        let mut cursor = Cursor::new(mem::replace(scan, Scan::new("")));
        let found = NodeTable::read(alloc, &mut cursor, limit);
        *scan = cursor.into_scan();
        found
    }

    /// Reads the value that the whole text ahead is, within the limit on levels.
    ///
    /// # Errors
    ///
    /// As `parse` has them, for this limit.
    fn read(alloc: Global, cursor: &mut Cursor<'_>, limit: usize) -> Result<NodeTable, DecodeError>
        requires bounded { limit < usize.MAX }
        requires together { cursor.old.ahead ≡ cursor.old.rest }
        requires whole { cursor.old.rest ≡ chars cursor.old.text }
        ensures looks { LooksAtMost (4 * length cursor.old.rest + 2) cursor.old cursor.new }
        ensures ok { IfOk result (λ table. ParsesWhole limit cursor.old.rest table) }
        ensures err { IfErr result (λ error. Explains limit cursor.old.rest (failure_of error)) }
    {
        let mut nodes = Nodes::new(alloc);
        match read_whole(alloc, &mut nodes, cursor, limit) {
            Ok(()) => Ok(NodeTable { nodes }),
            Err(error) => Err(error),
        }
    }

    /// Returns the table of a value's tree, absent fields kept.
    ///
    /// # Errors
    ///
    /// `OutOfMemory` where memory is refused, or the value has more nodes, text, octets or arcs
    /// than 32 bits count.
    pub fn from_value(alloc: Global, value: AvnValue) -> Result<NodeTable, OutOfMemory>
        ensures { IfOk result (λ table. table ≡ tree_of value) }
    {
        let mut nodes = Nodes::new(alloc);
        put_value(&mut nodes, &value)?;
        Ok(NodeTable { nodes })
    }

    /// Returns the table of nodes that are those of one value. It takes no memory.
    pub fn from_nodes(nodes: Nodes) -> NodeTable
        requires { nodes ≡ extended no_nodes (preorder [] (tree_of_nodes nodes.nodes)) }
        ensures { result ≡ tree_of_nodes nodes.nodes }
    {
        NodeTable { nodes }
    }

    /// Returns the number of nodes, those of absent fields counted.
    #[inline(always)]
    pub fn len(&self) -> usize
        ensures { result ≡ node_count self.now }
    {
        self.nodes.len()
    }

    /// Returns the kind of a node.
    #[inline(always)]
    pub fn kind(&self, node: usize) -> NodeKind
        requires { node < node_count self.now }
        ensures { result ≡ kind_of (tree_at self.now node) }
    {
        self.nodes.kind(node)
    }

    /// Returns the index of the first node after those within a node.
    #[inline(always)]
    pub fn end(&self, node: usize) -> usize
        requires { node < node_count self.now }
        ensures { result ≡ node + length (slot_descendants (tree_at self.now node)) + 1 }
    {
        self.nodes.end(node)
    }

    /// Returns the name of a field, or the identifier of the CHOICE that a node is the alternative
    /// of. It is empty elsewhere.
    #[inline(always)]
    pub fn name(&self, node: usize) -> &str
        requires { node < node_count self.now }
        ensures { result.now ≡ (node_at self.now node).0 }
    {
        self.nodes.name(node)
    }

    /// Returns the text of a number, an item or a character string, which is empty elsewhere.
    #[inline(always)]
    pub fn text(&self, node: usize) -> &str
        requires { node < node_count self.now }
        ensures { result.now ≡ text_of (tree_at self.now node) }
    {
        self.nodes.text(node)
    }

    /// Returns the octets of an OCTET STRING or a BIT STRING, which are none elsewhere.
    #[inline(always)]
    pub fn octets(&self, node: usize) -> &[u8]
        requires { node < node_count self.now }
        ensures { result.now ≡ octets_of (tree_at self.now node) }
    {
        self.nodes.octets(node)
    }

    /// Returns the length of a BIT STRING, which is 0 elsewhere.
    #[inline(always)]
    pub fn bit_length(&self, node: usize) -> usize
        requires { node < node_count self.now }
        ensures { result ≡ bit_length_of (tree_at self.now node) }
    {
        self.nodes.bit_length(node)
    }

    /// Returns the arcs of an OBJECT IDENTIFIER, which are none elsewhere.
    #[inline(always)]
    pub fn arcs(&self, node: usize) -> &[u32]
        requires { node < node_count self.now }
        ensures { result.now ≡ arcs_of (tree_at self.now node) }
    {
        self.nodes.arcs(node)
    }

    /// Returns the value at a node that is no absent field.
    ///
    /// # Errors
    ///
    /// `OutOfMemory` where memory is refused.
    #[cycle(value)]
    pub fn to_value(&self, alloc: Global, node: usize) -> Result<AvnValue, OutOfMemory>
        requires below { node < node_count self.now }
        requires present { kind_of (tree_at self.now node) ≢ NodeKind.Absent }
        ensures { IfOk result (λ value. tree_at self.now node ≡ Some (tree_of value)) }
    {
        match self.kind(node) {
            NodeKind::Boolean(truth) => Ok(AvnValue::Boolean(truth)),
            NodeKind::Null => Ok(AvnValue::Null),
            NodeKind::Integer => {
                let text = String::from_str(alloc, self.text(node))?;
                Ok(AvnValue::Integer(text))
            }
            NodeKind::Real => {
                let text = String::from_str(alloc, self.text(node))?;
                Ok(AvnValue::Real(text))
            }
            NodeKind::Enumerated => {
                let identifier = String::from_str(alloc, self.text(node))?;
                Ok(AvnValue::Enumerated(identifier))
            }
            NodeKind::CharString => {
                let text = String::from_str(alloc, self.text(node))?;
                Ok(AvnValue::CharString(text))
            }
            NodeKind::OctetString => {
                let octets = Vec::from_slice(alloc, self.octets(node))?;
                Ok(AvnValue::OctetString(octets))
            }
            NodeKind::BitString => {
                let bytes = Vec::from_slice(alloc, self.octets(node))?;
                let bit_length = self.bit_length(node);
                Ok(AvnValue::BitString { bytes, bit_length })
            }
            NodeKind::Oid => {
                let arcs = Vec::from_slice(alloc, self.arcs(node))?;
                Ok(AvnValue::Oid(arcs))
            }
            NodeKind::Sequence => {
                let fields = self.to_fields(alloc, node)?;
                Ok(AvnValue::Sequence(fields))
            }
            NodeKind::SequenceOf => {
                let list = self.to_list(alloc, node)?;
                Ok(AvnValue::SequenceOf(list))
            }
            NodeKind::Choice => {
                let payload = self.payload(node);
                let identifier = String::from_str(alloc, self.name(payload))?;
                let value = self.to_value(alloc, payload)?;
                let value = Box::new(alloc, value)?;
                Ok(AvnValue::Choice { identifier, value })
            }
            NodeKind::Absent => unreachable!(),
        }
    }

    /// Returns the printed text of the value at a node that is no absent field.
    ///
    /// # Errors
    ///
    /// `OutOfMemory` where memory is refused.
    pub fn print(&self, alloc: Global, node: usize) -> Result<String, OutOfMemory>
        requires below { node < node_count self.now }
        requires present { kind_of (tree_at self.now node) ≢ NodeKind.Absent }
        ensures { IfOk result (λ text. (tree : Tree) → tree_at self.now node ≡ Some tree
            → string_bytes text ≡ print 0 tree) }
    {
        let text = self.nodes.print(alloc, node)?;
        Ok(text)
    }

    /// Returns the alternative of a CHOICE, whose name is the CHOICE's identifier.
    #[inline(always)]
    pub fn payload(&self, node: usize) -> usize
        requires below { node < node_count self.now }
        requires choice { kind_of (tree_at self.now node) ≡ NodeKind.Choice }
        ensures next { result ≡ node + 1 }
        ensures below { result < node_count self.now }
        ensures choice { tree_at self.now node ≡ choice_with (node_at self.now result) }
        ensures present { kind_of (tree_at self.now result) ≢ NodeKind.Absent }
    {
        let _count = self.len();
        node + 1
    }

    /// Returns the fields of a SEQUENCE, as `to_value` does.
    #[cycle(value)]
    fn to_fields(
        &self,
        alloc: Global,
        node: usize,
    ) -> Result<Vec<(String, Option<AvnValue>)>, OutOfMemory>
        requires below { node < node_count self.now }
        requires sequence { kind_of (tree_at self.now node) ≡ NodeKind.Sequence }
        ensures { IfOk result (λ fields. tree_at self.now node
            ≡ Some (sequence (fields_trees fields.items))) }
    {
        let end = self.end(node);
        let mut fields = Vec::new(alloc);
        let mut child = node + 1;
        'children: while child < end {
            let name = String::from_str(alloc, self.name(child))?;
            let slot = match self.kind(child) {
                NodeKind::Absent => None,
                _ => Some(self.to_value(alloc, child)?),
            };
            fields.push((name, slot))?;
            child = self.end(child);
        }
        Ok(fields)
    }

    /// Returns the elements of a SEQUENCE OF, as `to_value` does.
    #[cycle(value)]
    fn to_list(&self, alloc: Global, node: usize) -> Result<Vec<AvnValue>, OutOfMemory>
        requires below { node < node_count self.now }
        requires list { kind_of (tree_at self.now node) ≡ NodeKind.SequenceOf }
        ensures { IfOk result (λ list. tree_at self.now node
            ≡ Some (sequence_of (list_trees list.items))) }
    {
        let end = self.end(node);
        let mut list = Vec::new(alloc);
        let mut child = node + 1;
        'children: while child < end {
            let value = self.to_value(alloc, child)?;
            list.push(value)?;
            child = self.end(child);
        }
        Ok(list)
    }
}

//! Nodes of a table that is being built, and what they hold.
ghost use Rattle.std.specs.Prelude.{true, false, Some, ◌≡◌, ◌<◌, ◌≤◌, ◌+◌, ◌^◌, ◌++◌, ◌∷◌, []};
ghost use Rattle.std.specs.Prelude.{List, length, map, take, All};
ghost use Rattle.std.specs.Prelude.{IfOk, OnOk, OnErr, get_or, string_bytes};
ghost use Rattle.std.specs.Str.{encode_utf8_all};
ghost use Rattle.std.specs.Char.{encode_utf8};
ghost use Rattle.avn_grammar.specs.Chars.{take_while, skip_while};
ghost use Rattle.avn_cursor.specs.Ahead.{Advances};
ghost use Rattle.avn_cursor.specs.Runs.{passes};
ghost use Rattle.avn_grammar.specs.Grammar.{word_of};
ghost use Rattle.avn_nodes.specs.NodeViews.{NodeView, view_at, kind_of, node_views};
ghost use Rattle.avn_nodes.specs.NodeRanges.{moved_node};
ghost use Rattle.avn_grammar.specs.Print.{print};
ghost use Rattle.avn_nodes.specs.Subtrees.{HasSlot, HasTree, subtrees_at, tree_from};
ghost use Rattle.avn_nodes.specs.Preorder.{preorder};
ghost use Rattle.avn_nodes.specs.NodeKinds.{HasNoContent, has_text, has_octets, has_arcs};
ghost use Rattle.avn_nodes.specs.NodeLists.{NodeList, no_nodes, extended, closed_node, with_leaf};
ghost use Rattle.avn_nodes.specs.NodeLists.{with_octets, with_arcs, with_open};

use crate::node_kind::NodeKind;
use asn_core::OutOfMemory;
use avn_cursor::{CharSet, Cursor};
use std::alloc::{AllocError, Global};
use std::marker::Model;

/// A node of a table. Its ranges lie in the buffers of all nodes.
#[derive(Clone, Copy, Drop)]
pub struct Node {
    /// What the node is.
    pub kind: NodeKind,
    /// Where its name begins in the text.
    pub name_start: u32,
    /// Where its name ends in the text.
    pub name_end: u32,
    /// Where its content begins: in the text, the octets or the arcs, as its kind is.
    pub start: u32,
    /// Where its content ends.
    pub bound: u32,
    /// The length of a BIT STRING.
    pub bit_length: u32,
    /// The index of the first node after those within it.
    pub end: u32,
}

/// The greatest index in a buffer, and the greatest length of a BIT STRING.
const GREATEST: usize = u32::MAX as usize;

/// Nodes in preorder, with their texts, octets and arcs. What the text has after that of the last
/// node is pending: the name of the next node, and then a word.
#[derive(Drop)]
pub struct Nodes {
    /// The nodes.
    nodes: Vec<Node>,
    /// All names, numbers, identifiers and character strings.
    text: String,
    /// The octets of all strings of octets and bits.
    octets: Vec<u8>,
    /// The arcs of all object identifiers.
    arcs: Vec<u32>,
    /// Where the pending name begins in the text.
    name: usize,
    /// Where the pending word begins in the text, which is where the name ends.
    word: usize,
}

impl Model for Nodes {
    ghost use Rattle.std.specs.Prelude.{string_bytes, length, ◌<◌, ◌^◌};
    ghost use Rattle.std.specs.List.{All};
    ghost use Rattle.avn_nodes.specs.NodeLists.{NodeList};

    ghost Value = { NodeList };

    ghost use Rattle.avn_nodes.specs.NodeRanges.{node_list, HasRanges, IsCharRange};

    ghost view = { λ s. node_list (string_bytes s.text) s.octets.items s.arcs.items
        s.nodes.items s.name s.word };

    ghost invariant = { λ s. All (HasRanges (string_bytes s.text) s.octets.items s.arcs.items)
        s.nodes.items
        × IsCharRange (string_bytes s.text) s.name s.word
        × (length s.nodes.items < 2 ^ 32) };
}

/// Returns the kind of what a bare identifier means.
#[inline(always)]
#[tactic(auto, unfolding(avn_grammar::specs::Grammar::word_of))]
fn word_kind(word: &str) -> NodeKind
    ensures kind { result ≡ kind_of (Some (word_of word.now)) }
    ensures octets { has_octets result ≡ false }
    ensures arcs { has_arcs result ≡ false }
{
    match word {
        "TRUE" => NodeKind::Boolean(true),
        "FALSE" => NodeKind::Boolean(false),
        "NULL" => NodeKind::Null,
        "PLUS-INFINITY" | "MINUS-INFINITY" | "NOT-A-NUMBER" => NodeKind::Real,
        _ => NodeKind::Enumerated,
    }
}

/// Adds a node over none. It stands apart, and its parts are passed in registers, so that no node
/// is moved through memory.
///
/// # Errors
///
/// `AllocError` where memory is refused.
#[inline(never)]
fn push_node(
    nodes: &mut Vec<Node>,
    kind: NodeKind,
    name_start: u32,
    name_end: u32,
    start: u32,
    bound: u32,
    bit_length: u32,
) -> Result<(), AllocError>
    requires { length nodes.old.items + 1 < 2 ^ 32 }
    ensures unchanged { OnErr result (nodes.new.items ≡ nodes.old.items) }
    ensures pushed { OnOk result (nodes.new.items ≡ nodes.old.items ++ record {
      kind = kind;
      name_start = name_start;
      name_end = name_end;
      start = start;
      bound = bound;
      bit_length = bit_length;
      end = length nodes.old.items + 1;
    } ∷ []) }
{
    let end = nodes.len() as u32 + 1;
    let node = Node {
        kind,
        name_start,
        name_end,
        start,
        bound,
        bit_length,
        end,
    };
    nodes.push(node)?;
    Ok(())
}

/// Adds the nodes of a subtree that is moved from a place to another one, where a node's end moves
/// with it.
///
/// # Errors
///
/// `AllocError` where memory is refused, or a place is above `GREATEST`.
fn push_moved(
    subtree: &[Node],
    from: usize,
    to: usize,
    moved: &mut Vec<Node>,
) -> Result<(), AllocError>
    requires { to < 2 ^ 34 }
    ensures { OnOk result (moved.new.items
        ≡ moved.old.items ++ map (moved_node from to) subtree.now) }
{
    for &node in subtree {
        let end = (node.end as usize + to).saturating_sub(from);
        if end > GREATEST {
            return Err(AllocError);
        }
        let mut copy = node;
        copy.end = end as u32;
        moved.push(copy)?;
    }
    Ok(())
}

/// Puts a text to the end of another one, or in its place where that is empty.
///
/// # Errors
///
/// `AllocError` where memory is refused.
fn append_text(text: &mut String, more: String) -> Result<(), AllocError>
    ensures bytes { OnOk result (string_bytes text.new
        ≡ string_bytes text.old ++ string_bytes more) }
    ensures unchanged { OnErr result (string_bytes text.new ≡ string_bytes text.old) }
{
    if text.is_empty() {
        *text = more;
        return Ok(());
    }
    text.push_str(more.as_str())?;
    Ok(())
}

impl Nodes {
    /// Returns no nodes.
    pub fn new(alloc: Global) -> Nodes
        ensures { result ≡ no_nodes }
    {
        Nodes {
            nodes: Vec::new(alloc),
            text: String::new(alloc),
            octets: Vec::new(alloc),
            arcs: Vec::new(alloc),
            name: 0,
            word: 0,
        }
    }

    /// Removes all nodes, and what they hold.
    pub fn clear(&mut self)
        ensures { self.new ≡ no_nodes }
    {
        self.nodes.clear();
        self.text.clear();
        self.octets.clear();
        self.arcs.clear();
        self.name = 0;
        self.word = 0;
    }

    /// Keeps the first nodes, at most so many.
    pub fn truncate(&mut self, count: usize)
        ensures { self.new ≡ record self.old { nodes = take count self.old.nodes } }
    {
        self.nodes.truncate(count);
    }

    /// Returns the number of nodes.
    #[inline(always)]
    pub fn len(&self) -> usize
        ensures { result ≡ length self.now.nodes }
    {
        self.nodes.len()
    }

    /// Puts the longest run ahead to the end of the word, and goes past it.
    ///
    /// # Errors
    ///
    /// `AllocError` where memory is refused. The nodes are then no longer those from before.
    #[inline(always)]
    pub fn take_run(&mut self, cursor: &mut Cursor<'_>, run: CharSet) -> Result<(), AllocError>
        requires { cursor.old.ahead ≡ cursor.old.rest }
        ensures advances { Advances 1 cursor.old cursor.new }
        ensures together { cursor.new.ahead ≡ cursor.new.rest }
        ensures moves { OnOk result (cursor.new.rest ≡ skip_while (passes run) cursor.old.rest) }
        ensures found { OnOk result (self.new ≡ record self.old {
          word = self.old.word ++ encode_utf8_all (take_while (passes run) cursor.old.rest);
        }) }
    {
        match cursor.take_run(run, &mut self.text) {
            Ok(()) => Ok(()),
            Err(refused) => {
                self.nodes.clear();
                self.text.clear();
                self.name = 0;
                self.word = 0;
                Err(refused)
            }
        }
    }

    /// Puts a character to the end of the word.
    ///
    /// # Errors
    ///
    /// `AllocError` where memory is refused.
    #[inline(always)]
    pub fn push_char(&mut self, c: char) -> Result<(), AllocError>
        ensures pushed { OnOk result (self.new ≡ record self.old {
          word = self.old.word ++ encode_utf8 c;
        }) }
        ensures ascii { c < 128 → encode_utf8 c ≡ c ∷ [] }
    {
        self.text.push(c)?;
        Ok(())
    }

    /// Puts a text to the end of the word.
    ///
    /// # Errors
    ///
    /// `AllocError` where memory is refused.
    #[inline(always)]
    pub fn push_text(&mut self, text: &str) -> Result<(), AllocError>
        ensures { OnOk result (self.new ≡ record self.old {
          word = self.old.word ++ text.now;
        }) }
    {
        self.text.push_str(text)?;
        Ok(())
    }

    /// Puts a text that is handed over to the end of the word. It is moved where there is no text
    /// yet.
    ///
    /// # Errors
    ///
    /// `AllocError` where memory is refused.
    pub fn push_string(&mut self, text: String) -> Result<(), AllocError>
        ensures { OnOk result (self.new ≡ record self.old {
          word = self.old.word ++ string_bytes text;
        }) }
    {
        append_text(&mut self.text, text)?;
        Ok(())
    }

    /// Makes the word the name of the next node.
    #[inline(always)]
    pub fn name_next(&mut self)
        ensures { self.new ≡ record self.old { name = self.old.word; word = [] } }
    {
        self.name = self.word;
        self.word = self.text.len();
    }

    /// Adds a node of the kind, whose text, if it has one, is the word.
    ///
    /// # Errors
    ///
    /// `AllocError` where memory is refused, or a place is above `GREATEST`.
    #[inline(always)]
    pub fn leaf(&mut self, kind: NodeKind) -> Result<(), AllocError>
        requires octets { has_octets kind ≡ false }
        requires arcs { has_arcs kind ≡ false }
        ensures { OnOk result (self.new ≡ with_leaf kind self.old) }
    {
        let bound = self.text.len();
        let end = self.nodes.len() + 1;
        if bound > GREATEST || end > GREATEST {
            return Err(AllocError);
        }
        let name = self.name as u32;
        let word = self.word as u32;
        push_node(&mut self.nodes, kind, name, word, word, bound as u32, 0)?;
        self.name = bound;
        self.word = bound;
        Ok(())
    }

    /// Adds a node of what the word means: a keyword, or else an item.
    ///
    /// # Errors
    ///
    /// As `leaf` has them.
    #[inline(always)]
    pub fn word_leaf(&mut self) -> Result<(), AllocError>
        ensures { OnOk result (self.new
            ≡ extended self.old (preorder self.old.name (word_of self.old.word))) }
    {
        let kind = word_kind(&self.text.as_str()[self.word..]);
        self.leaf(kind)
    }

    /// Adds a node of an OCTET STRING or a BIT STRING, whose octets go to the end of the others.
    ///
    /// # Errors
    ///
    /// `AllocError` where memory is refused, or a place or the length is above `GREATEST`.
    pub fn octets_leaf(
        &mut self,
        kind: NodeKind,
        octets: &[u8],
        bit_length: usize,
    ) -> Result<(), AllocError>
        requires text { has_text kind ≡ false }
        requires octets { has_octets kind ≡ true }
        requires arcs { has_arcs kind ≡ false }
        ensures { OnOk result (self.new ≡ with_octets kind octets.now bit_length self.old) }
    {
        let start = self.octets.len();
        self.octets.extend_from_slice(octets)?;
        let bound = self.octets.len();
        let end = self.nodes.len() + 1;
        let edge = self.text.len();
        if edge > GREATEST || bound > GREATEST || end > GREATEST || bit_length > GREATEST {
            return Err(AllocError);
        }
        let name = self.name as u32;
        let word = self.word as u32;
        let bits = bit_length as u32;
        push_node(
            &mut self.nodes,
            kind,
            name,
            word,
            start as u32,
            bound as u32,
            bits,
        )?;
        self.name = edge;
        self.word = edge;
        Ok(())
    }

    /// Adds a node of an OBJECT IDENTIFIER, whose arcs go to the end of the others.
    ///
    /// # Errors
    ///
    /// As `leaf` has them.
    pub fn arcs_leaf(&mut self, arcs: &[u32]) -> Result<(), AllocError>
        ensures { OnOk result (self.new ≡ with_arcs arcs.now self.old) }
    {
        let start = self.arcs.len();
        self.arcs.extend_from_slice(arcs)?;
        let bound = self.arcs.len();
        let end = self.nodes.len() + 1;
        let edge = self.text.len();
        if edge > GREATEST || bound > GREATEST || end > GREATEST {
            return Err(AllocError);
        }
        let name = self.name as u32;
        let word = self.word as u32;
        push_node(
            &mut self.nodes,
            NodeKind::Oid,
            name,
            word,
            start as u32,
            bound as u32,
            0,
        )?;
        self.name = edge;
        self.word = edge;
        Ok(())
    }

    /// Returns the kind of a node.
    #[inline(always)]
    pub fn kind(&self, place: usize) -> NodeKind
        requires { place < length self.now.nodes }
        ensures { result ≡ (view_at self.now.nodes place).kind }
    {
        self.nodes[place].kind
    }

    /// Returns the index of the first node after those within a node.
    #[inline(always)]
    pub fn end(&self, place: usize) -> usize
        requires { place < length self.now.nodes }
        ensures { result ≡ (view_at self.now.nodes place).end }
    {
        self.nodes[place].end as usize
    }

    /// Returns the length of a BIT STRING.
    pub fn bit_length(&self, place: usize) -> usize
        requires { place < length self.now.nodes }
        ensures { result ≡ (view_at self.now.nodes place).bits }
    {
        self.nodes[place].bit_length as usize
    }

    /// Returns the name of a node.
    #[inline(always)]
    pub fn name(&self, place: usize) -> &str
        requires { place < length self.now.nodes }
        ensures { result.now ≡ (view_at self.now.nodes place).name }
    {
        let node = self.nodes[place];
        &self.text.as_str()[node.name_start as usize..node.name_end as usize]
    }

    /// Returns the text of a node, which is empty where it has none.
    #[inline(always)]
    pub fn text(&self, place: usize) -> &str
        requires { place < length self.now.nodes }
        ensures { result.now ≡ (view_at self.now.nodes place).text }
    {
        let node = self.nodes[place];
        if !node.kind.has_text() {
            return "";
        }
        &self.text.as_str()[node.start as usize..node.bound as usize]
    }

    /// Returns the octets of a node, which are none where it has none.
    #[inline(always)]
    pub fn octets(&self, place: usize) -> &[u8]
        requires { place < length self.now.nodes }
        ensures { result.now ≡ (view_at self.now.nodes place).octets }
    {
        let node = self.nodes[place];
        if !node.kind.has_octets() {
            return &[];
        }
        &self.octets[node.start as usize..node.bound as usize]
    }

    /// Returns the arcs of a node, which are none where it has none.
    #[inline(always)]
    pub fn arcs(&self, place: usize) -> &[u32]
        requires { place < length self.now.nodes }
        ensures { result.now ≡ (view_at self.now.nodes place).arcs }
    {
        let node = self.nodes[place];
        if !node.kind.has_arcs() {
            return &[];
        }
        &self.arcs[node.start as usize..node.bound as usize]
    }

    /// Returns the printed text of the value at a node, as `print` does. The text has room from the
    /// beginning for what all nodes hold, so it is for a value that has most of them within it.
    ///
    /// # Errors
    ///
    /// `OutOfMemory` where memory is refused.
    pub fn print_with_room(&self, alloc: Global, node: usize) -> Result<String, OutOfMemory>
        requires { HasTree self.now.nodes node }
        ensures { IfOk result (λ text.
            string_bytes text ≡ print 0 (tree_from self.now.nodes node)) }
    {
        // Two digits for each octet, and four bytes between two values.
        let digits = self.octets.len().saturating_mul(2);
        let breaks = self.nodes.len().saturating_mul(4);
        let room = self
            .text
            .len()
            .saturating_add(digits)
            .saturating_add(breaks);
        let empty = String::with_capacity(alloc, room)?;
        self.print_into(empty, node)
    }

    /// Adds a node of the kind over those that follow it. The word is the name of the first of
    /// them.
    ///
    /// # Errors
    ///
    /// As `leaf` has them.
    #[inline(always)]
    pub fn open(&mut self, kind: NodeKind) -> Result<(), AllocError>
        requires { HasNoContent kind }
        ensures { OnOk result (self.new ≡ with_open kind self.old) }
    {
        let bound = self.text.len();
        let end = self.nodes.len() + 1;
        if bound > GREATEST || end > GREATEST {
            return Err(AllocError);
        }
        let name = self.name as u32;
        let word = self.word as u32;
        push_node(
            &mut self.nodes,
            kind,
            name,
            word,
            bound as u32,
            bound as u32,
            0,
        )?;
        self.name = self.word;
        self.word = bound;
        Ok(())
    }

    /// Closes a node: it has the kind now, and all nodes after it are within it.
    #[inline(always)]
    pub fn close(&mut self, place: usize, kind: NodeKind)
        requires below { place < length self.old.nodes }
        requires plain { HasNoContent kind }
        ensures { (before after : List NodeView) (node : NodeView)
            → self.old.nodes ≡ before ++ node ∷ after → length before ≡ place
            → self.new ≡ record self.old {
              nodes = before ++ closed_node kind (length self.old.nodes) node ∷ after;
            } }
    {
        let end = self.nodes.len();
        let node = &mut self.nodes[place];
        node.kind = kind;
        node.end = end as u32;
    }

    /// Makes the word the name of a node.
    ///
    /// # Errors
    ///
    /// `AllocError` where the text is longer than `GREATEST`.
    pub fn name_node(&mut self, place: usize) -> Result<(), AllocError>
        requires { place < length self.old.nodes }
        ensures { OnOk result ((before after : List NodeView) (node : NodeView)
            → self.old.nodes ≡ before ++ node ∷ after → length before ≡ place
            → self.new ≡ record {
              nodes = before ++ record node { name = self.old.word } ∷ after;
              name = [];
              word = [];
            }) }
    {
        let bound = self.text.len();
        if bound > GREATEST {
            return Err(AllocError);
        }
        let node = &mut self.nodes[place];
        node.name_start = self.word as u32;
        node.name_end = bound as u32;
        self.name = bound;
        self.word = bound;
        Ok(())
    }

    /// Puts the subtrees at these nodes, in this order, in the place of the nodes from a place on.
    ///
    /// # Errors
    ///
    /// `AllocError` where memory is refused, or a place is above `GREATEST`.
    pub fn arrange(
        &mut self,
        alloc: Global,
        place: usize,
        order: &[usize],
    ) -> Result<(), AllocError>
        requires within { place ≤ length self.old.nodes }
        requires subtrees { All (HasSlot self.old.nodes) order.now }
        ensures { OnOk result (self.new ≡ record self.old {
          nodes = take place self.old.nodes
              ++ node_views place (subtrees_at self.old.nodes order.now);
        }) }
    {
        let mut moved = Vec::new(alloc);
        for &node in order {
            let to = place + moved.len();
            if to > GREATEST {
                return Err(AllocError);
            }
            let end = self.nodes[node].end as usize;
            push_moved(&self.nodes[node..end], node, to, &mut moved)?;
        }
        if place + moved.len() > GREATEST {
            return Err(AllocError);
        }
        self.nodes.truncate(place);
        self.nodes.append(&mut moved)?;
        Ok(())
    }
}

//! The items of braces, as far as their reader has to know of them.
ghost use Rattle.std.specs.Prelude.{◌≡◌, [], ◌∷◌, ◌++◌, List, IfSome, IfNone, cond};
ghost use Rattle.avn_grammar.specs.Grammar.{Item, AreBraceItems};
ghost use Rattle.avn_value.specs.Gathering.{Holds, MakesKind};
ghost use Rattle.avn_nodes.specs.NodeKinds.{HasNoContent};
ghost use Rattle.avn_value.specs.ReadNodes.{kind_of_item};

use avn_nodes::NodeKind;

/// What an item of braces is.
#[derive(Clone, Copy, Drop)]
pub enum ItemKind {
    /// A value with a name.
    Named,
    /// An Integer without a name.
    Integer,
    /// Any other value without a name.
    Value,
}

impl ItemKind {
    /// Returns the kind of a value without a name, which is an Integer or not.
    #[inline(always)]
    pub fn of(integer: bool) -> ItemKind
        ensures { result ≡ cond integer ItemKind.Integer ItemKind.Value }
    {
        if integer {
            ItemKind::Integer
        } else {
            ItemKind::Value
        }
    }
}

/// What the items of braces are that were read so far. No item is visited again, neither where a
/// comma is missing nor at the closing brace.
#[derive(Clone, Copy, Drop)]
pub struct BraceItems {
    /// Some have names.
    pub named: bool,
    /// Some have none.
    pub bare: bool,
    /// All are Integers without a name.
    pub integers: bool,
}

impl BraceItems {
    /// Returns what no items are.
    #[inline(always)]
    pub fn new() -> BraceItems
        ensures { Holds result [] }
    {
        BraceItems {
            named: false,
            bare: false,
            integers: true,
        }
    }

    /// Adds an item of the kind.
    #[inline(always)]
    pub fn add(&mut self, kind: ItemKind)
        ensures { (before : List Item) (item : Item) → kind ≡ kind_of_item item
            → Holds self.old before → Holds self.new (before ++ item ∷ []) }
    {
        match kind {
            ItemKind::Named => {
                self.named = true;
                self.integers = false;
            }
            ItemKind::Integer => {
                self.bare = true;
            }
            ItemKind::Value => {
                self.bare = true;
                self.integers = false;
            }
        }
    }

    /// Returns the kind of the value that the braces are, unless items with a name and without are
    /// mixed.
    #[inline(always)]
    pub fn kind(&self) -> Option<NodeKind>
        ensures some { IfSome result (λ kind. (items : List Item)
            → Holds self.now items → MakesKind items kind) }
        ensures plain { IfSome result HasNoContent }
        ensures none { IfNone result ((items : List Item) (tree : _)
            → Holds self.now items → AreBraceItems items tree → ⊥) }
    {
        if !self.named {
            return Some(NodeKind::SequenceOf);
        }
        if !self.bare {
            return Some(NodeKind::Sequence);
        }
        None
    }
}

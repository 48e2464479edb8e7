//! States the laws of the notation, each as the contract of a function that does nothing. Each
//! holds for every limit on levels. A call gives the caller's proof the law, and no code.
ghost use Rattle.std.specs.Prelude.{◌≡◌, ℕ, ◌≤◌, ◌<◌, ◌++◌, ◌↔◌, List, true};
ghost use Rattle.std.specs.Str.{chars};
ghost use Rattle.avn_grammar.specs.Tree.{Tree};
ghost use Rattle.avn_grammar.specs.Chars.{class_of_next, skip};
ghost use Rattle.avn_grammar.specs.Grammar.{Parses, ParsesWhole, ComesAfterValue};
ghost use Rattle.avn_grammar.specs.Depth.{ExceedsDepth, deepest};
ghost use Rattle.avn_grammar.specs.ParseFailure.{ParseFailure};
ghost use Rattle.avn_grammar.specs.Print.{print};
ghost use Rattle.avn_grammar.specs.WellFormed.{is_well_formed};
ghost use Rattle.avn_grammar.specs.Normal.{normal};

/// At most one tree stands at the front of a text, and at most one rest follows it.
pub fn one_tree_and_rest()
    ensures { (limit level : ℕ) (text rest other_rest : List ℕ) (tree other : Tree)
        → Parses limit level text tree rest → Parses limit level text other other_rest
        → (tree ≡ other) × (rest ≡ other_rest) }
{}

/// No tree stands at the front of a text where a value is nested beyond the limit.
pub fn depth_excludes_tree()
    ensures { (limit level : ℕ) (text rest : List ℕ) (tree : Tree)
        → ExceedsDepth limit level text → Parses limit level text tree rest → ⊥ }
{}

/// A whole text is read as at most one tree.
pub fn one_tree()
    ensures { (limit : ℕ) (text : List ℕ) (tree other : Tree)
        → ParsesWhole limit text tree → ParsesWhole limit text other → tree ≡ other }
{}

/// A whole text that is read within a limit is read within a larger one, as the same tree.
pub fn larger_limit_reads()
    ensures { (limit larger : ℕ) (text : List ℕ) (tree : Tree)
        → limit ≤ larger → ParsesWhole limit text tree → ParsesWhole larger text tree }
{}

/// A whole text has at most one of three outcomes: it is read as a tree, it is not read and
/// something else was found, or a value in it is nested beyond the limit. Each clause excludes
/// two of them together.
pub fn one_answer()
    ensures read_or_unread { (limit : ℕ) (text found : List ℕ) (tree : Tree)
        → ParsesWhole limit text tree → ParseFailure limit text found → ⊥ }
    ensures read_or_deep { (limit : ℕ) (text : List ℕ) (tree : Tree)
        → ParsesWhole limit text tree → ExceedsDepth limit 0 text → ⊥ }
    ensures unread_or_deep { (limit : ℕ) (text found : List ℕ)
        → ParseFailure limit text found → ExceedsDepth limit 0 text → ⊥ }
{}

/// A text that is not read has one text that an error names as found.
pub fn one_found()
    ensures { (limit : ℕ) (text found other : List ℕ)
        → ParseFailure limit text found → ParseFailure limit text other → found ≡ other }
{}

/// The printed text of a well-formed tree is read as its normal form where the tree is no deeper
/// than the limit, whatever text follows that may follow a value. `depth` counts the levels that
/// the text is indented by.
pub fn reads_printed_text()
    ensures { (limit level depth : ℕ) (tree : Tree) (rest : List ℕ)
        → is_well_formed tree ≡ true → deepest level tree ≤ limit
        → ComesAfterValue (class_of_next (skip (chars rest)))
        → Parses limit level (chars (print depth tree ++ rest)) (normal tree) (chars rest) }
{}

/// The whole printed text of a well-formed tree that is no deeper than the limit is read as its
/// normal form.
pub fn reads_whole_printed_text()
    ensures { (limit : ℕ) (tree : Tree)
        → is_well_formed tree ≡ true → deepest 0 tree ≤ limit
        → ParsesWhole limit (chars (print 0 tree)) (normal tree) }
{}

/// The printed text of a well-formed tree is refused for its depth exactly where the tree is
/// deeper than the limit.
pub fn depth_of_printed_text()
    ensures { (limit level depth : ℕ) (tree : Tree) (rest : List ℕ)
        → is_well_formed tree ≡ true → ComesAfterValue (class_of_next (skip (chars rest)))
        → ExceedsDepth limit level (chars (print depth tree ++ rest))
        ↔ (limit < deepest level tree) }
{}

/// The whole printed text of a well-formed tree is refused for its depth where the tree is deeper
/// than the limit.
pub fn depth_of_whole_printed_text()
    ensures { (limit : ℕ) (tree : Tree)
        → is_well_formed tree ≡ true → limit < deepest 0 tree
        → ExceedsDepth limit 0 (chars (print 0 tree)) }
{}

/// The normal form of a normal form is itself.
pub fn normal_of_normal()
    ensures { (tree : Tree) → normal (normal tree) ≡ normal tree }
{}

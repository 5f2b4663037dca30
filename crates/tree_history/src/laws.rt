//! Laws of trees over lists of rows, each the contract of a function that does nothing.
ghost use Rattle.std.specs.Prelude.{◌≡◌, List, None, Some, true};
ghost use Rattle.arc_core.specs.declared.attributes.Attrs.{Attrs};
ghost use Rattle.tree_coll.specs.declared.replies.TreeReply.{TreeReply};
ghost use Rattle.tree_coll.specs.TreeOutcomes.{TreeContents, becomes, empty_tree};
ghost use Rattle.tree_history.specs.Agreement.{Agrees, MissesNothing};
ghost use Rattle.tree_history.specs.Kept.{Ledger, after_row, is_never_silent, ledger_after, opened};
ghost use Rattle.tree_history.specs.TreeEntries.{TreeEntry, TreeRow, outcome_of};
ghost use Rattle.tree_history.specs.TreeKinds.{IsInOrder};

/// A law: of a tree that was made and asked anything since, with an action that is no silent one, a read that ends with END
/// answers as one of all elements that were put and not taken; where it finds nothing, there is none of them; and a count outside
/// what was trimmed counts them.
pub fn ends_miss_nothing()
    ensures { (entries : List TreeEntry) (ledger : Ledger) → ledger_after entries None ≡ Some ledger → is_never_silent ledger ≡ true → MissesNothing ledger }
{}

/// A law, for histories of many trees: a tree that is made agrees with what is kept of it, which is nothing; what a row makes of
/// them agrees again; and what agrees misses nothing.
pub fn rows_keep_agreement()
    ensures made { (attrs : Attrs) → Agrees (opened attrs) }
    ensures row { (row : TreeRow) (old new : Ledger) → Agrees old → is_never_silent old ≡ true → after_row row old (outcome_of row old.attrs old.contents) ≡ Some new → Agrees new }
    ensures read { (ledger : Ledger) → Agrees ledger → MissesNothing ledger }
{}

/// A law: the elements of an empty tree rise and are of one kind with its edges, and so are those of what a row makes of a tree
/// that is so, whatever its attributes.
pub fn rows_keep_order()
    ensures made { IsInOrder empty_tree }
    ensures row { (row : TreeRow) (attrs : Attrs) (tree new : TreeContents) (answer : TreeReply) → IsInOrder tree → outcome_of row attrs tree ≡ becomes new answer → IsInOrder new }
{}

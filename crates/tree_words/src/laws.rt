//! The law on rows: each is read from the left as what it spells.
ghost use Rattle.std.specs.Prelude.{Bool};
ghost use Rattle.tree_words.specs.AttrGrammar.{getattr_row, setattr_row};
ghost use Rattle.tree_words.specs.Exact.{ReadsWhatItSpells};
ghost use Rattle.tree_words.specs.TreeLines.{tree_arith_row, tree_count_row, tree_create_row, tree_delete_row, tree_get_row, tree_insert_row, tree_update_row, tree_upsert_row};

/// Each row is read from the left as what it spells, whichever of its parts are left out: so words spell at most one command
/// by it, and where they spell one, that one is read.
///
/// The function does nothing: this law is its contract.
pub fn rows_read_what_they_spell()
    ensures create { ReadsWhatItSpells tree_create_row }
    ensures insert { ReadsWhatItSpells tree_insert_row }
    ensures upsert { ReadsWhatItSpells tree_upsert_row }
    ensures update { ReadsWhatItSpells tree_update_row }
    ensures delete { ReadsWhatItSpells tree_delete_row }
    ensures get { ReadsWhatItSpells tree_get_row }
    ensures count { ReadsWhatItSpells tree_count_row }
    ensures arith { (up : Bool) → ReadsWhatItSpells (tree_arith_row up) }
    ensures getattr { ReadsWhatItSpells getattr_row }
    ensures setattr { ReadsWhatItSpells setattr_row }
{}

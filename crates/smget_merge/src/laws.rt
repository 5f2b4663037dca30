//! What a merge of many trees hands out in all.
ghost use Rattle.std.specs.Prelude.{◌≡◌, ℕ, Bool, ◌++◌, List, None, Option};
ghost use Rattle.arc_core.specs.declared.bkeys.BkeyRange.{BkeyRange};
ghost use Rattle.arc_core.specs.declared.filters.Filter.{Filter};
ghost use Rattle.arc_core.specs.declared.trees.Elem.{Elem};
ghost use Rattle.arc_core.specs.BkeyOrder.{is_down};
ghost use Rattle.smget_merge.specs.MergedRows.{TreeRow, merged, rows_in, sorted, wanted};

/// Rows that were sorted, and further ones: it is the same to sort them all at once. So trees that are added one by one leave
/// the sorted rows of all of them.
pub fn adds_are_sorted()
    ensures { (down : Bool) (xs ys : List TreeRow) → sorted down (sorted down xs ++ ys) ≡ sorted down (xs ++ ys) }
{}

/// What is wanted of the sorted rows of trees is a merged read of them: it is the same to select first and to sort then.
pub fn reads_are_merged()
    ensures { (range : BkeyRange) (asked : Option Filter) (unique : Bool) (trees : List (ℕ × List Elem)) → wanted asked unique None (sorted (is_down range) (rows_in range trees)) ≡ merged range asked unique trees }
{}

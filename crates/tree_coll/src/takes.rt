//! Reads that take what they answer out of a tree, and deletions.
ghost use Rattle.std.specs.Prelude.{◌≡◌, length, map, if◌then◌else◌};
ghost use Rattle.arc_core.specs.declared.collections.Take.TheVariants as taking;
ghost use Rattle.arc_core.specs.TreeReading.{chosen, covered_range};
ghost use Rattle.tree_coll.specs.TreeOutcomes.{tree_row};
ghost use Rattle.tree_coll.specs.TreePlanning.{Plans, SuitsPlan, TakesNoMemory};
ghost use Rattle.tree_coll.specs.TreeRows.{chosen_read, tree_delete};

use crate::chosen::chosen_places;
use crate::planned::answered;
use crate::reads::answer_read;
use crate::walk::Walked;
use crate::{TreeColl, TreePlanned, TreeRemoval, TreeRemoved, TreeWord, is_of_kind};
use arc_core::{Attrs, TreeRead};
use btree_nodes::Steps;
use std::sync::ledger::Ledger;

/// The plan of a read that takes out what it answers, by its walk. `drop_empty` says that a tree which is left empty goes.
pub(crate) fn plan_taken<'a, L: Ledger>(
    held: &TreeColl,
    attrs: &Attrs,
    read: &'a TreeRead<'a>,
    walked: Walked,
    drop_empty: bool,
    steps: &mut Steps<L>,
) -> TreePlanned<'a>
    requires rows { walked.rows ≡ map tree_row (chosen read.now held.now.contents.elements) }
    requires covered { walked.covered ≡ covered_range read.now held.now.contents.elements }
    ensures plans { Plans (chosen_read (if drop_empty then taking.Drop else taking.Delete) read.now attrs.now held.now.contents (chosen read.now held.now.contents.elements)) held.now.contents result }
    ensures suits { SuitsPlan held.now.contents result }
{
    if walked.rows.as_slice().len() == 0 {
        return TreePlanned::Stays(answer_read(held, attrs, read, walked, steps));
    }
    let (low, high) = chosen_places(held.tree(), read, steps);
    TreePlanned::Removes {
        removal: TreeRemoval {
            low,
            high,
            filter: &read.filter,
        },
        drop_empty,
        removed: TreeRemoved::Read {
            flags: attrs.flags,
            rows: walked.rows,
        },
    }
}

/// `bop delete`: removes the elements that the read chooses. The edges stay.
///
/// `BKEY_MISMATCH` comes for a range of another kind than the tree's, `NOT_FOUND_ELEMENT` where it chooses none. `drop_empty`
/// says that a tree which is left empty goes too, and is answered with `DELETED_DROPPED`. Takes no memory. (ARCUS's.)
pub fn delete_from_tree<'a, L: Ledger>(
    held: &TreeColl,
    attrs: &Attrs,
    read: &'a TreeRead<'a>,
    drop_empty: bool,
    steps: &mut Steps<L>,
) -> TreePlanned<'a>
    ensures plans { Plans (tree_delete read.now drop_empty attrs.now held.now.contents) held.now.contents result }
    ensures suits { SuitsPlan held.now.contents result }
    ensures memory { TakesNoMemory result }
{
    if !is_of_kind(&read.range.first, held.tree(), held.edges(), steps) {
        return answered(TreeWord::BkeyMismatch);
    }
    let (low, high) = chosen_places(held.tree(), read, steps);
    if low == high {
        return answered(TreeWord::NotFoundElement);
    }
    TreePlanned::Removes {
        removal: TreeRemoval {
            low,
            high,
            filter: &read.filter,
        },
        drop_empty,
        removed: TreeRemoved::Told,
    }
}

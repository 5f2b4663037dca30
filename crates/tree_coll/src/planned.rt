//! What a request wants done with a tree.
ghost use Rattle.std.specs.Prelude.{◌≡◌};
ghost use Rattle.tree_coll.specs.TreePlanning.{reply_of};

use crate::{TreeReply, TreeWord};
use arc_core::{Edges, Elem, Filter, Row, Seq, Tail};

/// What a request wants done with the tree under its key.
#[derive(Drop)]
pub enum TreePlanned<'a> {
    /// To answer, and leave it as it is.
    Stays(TreeReply),
    /// To change it, and answer.
    Changes(TreeChange, TreeReply),
    /// To take elements out of it. Where it is empty then, and `drop_empty` says so, it goes too.
    Removes {
        removal: TreeRemoval<'a>,
        drop_empty: bool,
        removed: TreeRemoved,
    },
}

/// A change of a tree that was decided. Places are counted from 0 in what it holds before, lowest bkey first.
#[derive(Drop)]
pub enum TreeChange {
    /// A new element. Those from place `low` to before place `high` are trimmed, and the edges are these then.
    Store {
        low: u32,
        high: u32,
        edges: Edges,
        elem: Elem,
    },
    /// Another element for the one in a place, whose bkey it has.
    Replace {
        place: u32,
        elem: Elem,
    },
    /// Other edges alone, behind an insert that was refused.
    MoveEdges(Edges),
}

/// Elements that are taken out of a tree: those from place `low` to before place `high`, lowest bkey first and counted from 0,
/// that pass the filter, where there is one.
#[derive(Drop)]
pub struct TreeRemoval<'a> {
    pub low: u32,
    pub high: u32,
    pub filter: &'a Option<Filter<'a>>,
}

/// What is answered to a removal.
#[derive(Drop)]
pub enum TreeRemoved {
    /// That the elements are gone.
    Told,
    /// The elements, with the tree's client flags.
    Read { flags: u32, rows: Seq<Row> },
}

impl TreeRemoved {
    /// The answer to the removal, with which the tree has gone or not.
    pub fn reply(self, dropped: bool) -> TreeReply
        ensures { result ≡ reply_of self dropped }
    {
        match self {
            TreeRemoved::Told if dropped => TreeReply::Word(TreeWord::DeletedDropped),
            TreeRemoved::Told => TreeReply::Word(TreeWord::Deleted),
            TreeRemoved::Read { flags, rows } => {
                let tail = if dropped {
                    Tail::DeletedDropped
                } else {
                    Tail::Deleted
                };
                TreeReply::Rows { flags, rows, tail }
            }
        }
    }
}

/// A word is answered, and the tree stays.
pub(crate) fn answered<'a>(word: TreeWord) -> TreePlanned<'a>
    ensures { result ≡ TreePlanned.Stays (TreeReply.Word word) }
{
    TreePlanned::Stays(TreeReply::Word(word))
}

//! Commands on the attributes of an item: what a line asks for.

use crate::attr_words::{AttrPairs, AttrWords};
use arc_core::KeyRef;

/// What a line asks of the attributes of an item. It borrows the line.
#[derive(Drop)]
pub enum AttrCommand<'a> {
    /// Reads the attributes of these names, all that the item has where no name is given (`getattr`).
    GetAttr {
        key: KeyRef<'a>,
        names: AttrWords<'a>,
    },
    /// Sets attributes, one after another (`setattr`).
    SetAttr {
        key: KeyRef<'a>,
        pairs: AttrPairs<'a>,
    },
}

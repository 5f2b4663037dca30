//! The rows of the commands on attributes: how the words behind a command's name go on. (The ARCUS protocol; the limits are
//! this server's own.)
ghost use Rattle.std.specs.Prelude.{◌≡◌};
ghost use Rattle.arc_core.specs.Rows.{row_read};
ghost use Rattle.tree_words.specs.AttrGrammar.{getattr_row, setattr_row};

use crate::AttrCommand;
use crate::attr_words::{AttrPairs, AttrWords};
use arc_core::WordIter;

/// Reads what follows `getattr`: `<key> [<name> ..]`, with 16 names at most.
#[tactic(auto, unfolding(crate::specs::AttrGrammar::getattr_row))]
pub fn getattr(mut words: WordIter<'_>) -> Option<AttrCommand<'_>>
    ensures { result ≡ row_read getattr_row words.entry }
{
    let key = words.next_key()?;
    let names = AttrWords::read(words.text())?;
    Some(AttrCommand::GetAttr { key, names })
}

/// Reads what follows `setattr`: `<key> <name>=<value> [<name>=<value> ..]`, with 16 pairs at most.
#[tactic(auto, unfolding(crate::specs::AttrGrammar::setattr_row))]
pub fn setattr(mut words: WordIter<'_>) -> Option<AttrCommand<'_>>
    ensures { result ≡ row_read setattr_row words.entry }
{
    let key = words.next_key()?;
    let pairs = AttrPairs::read(words.text())?;
    Some(AttrCommand::SetAttr { key, pairs })
}

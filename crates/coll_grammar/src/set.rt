//! The rows of the commands on sets: how the words behind a command's name go on. (`sop` of the ARCUS protocol; the limits
//! are this server's own.)
ghost use Rattle.std.specs.Prelude.{◌≡◌};
ghost use Rattle.arc_core.specs.SetGrammar.{set_insert_row, set_delete_row, set_exist_row, set_get_row};
ghost use Rattle.arc_core.specs.Rows.{row_read};

use crate::parts::{
    alone, alone_or_piped, answered_or_piped, creation, next_len, skip_drop, taking,
};
use arc_core::{CollCommand, CollHead, Kind, WordIter};

/// Reads what follows `sop insert`:
/// `<key> <bytes> [create <flags> <exptime> <maxcount> [<action>] [unreadable]] [noreply|pipe]`.
#[tactic(auto, unfolding(arc_core::specs::SetGrammar::set_insert_row), using(crate::proofs::PartLemmas::creation_is_read))]
pub fn insert(mut words: WordIter<'_>) -> Option<CollHead<'_>>
    ensures { result ≡ row_read set_insert_row words.entry }
{
    let key = words.next_key()?;
    let len = next_len(&mut words)?;
    let (create, words) = creation(Kind::Set, words)?;
    answered_or_piped(CollCommand::SetInsert { key, len, create }, words)
}

/// Reads what follows `sop delete`: `<key> <bytes> [drop] [noreply|pipe]`.
#[tactic(auto, unfolding(arc_core::specs::SetGrammar::set_delete_row))]
pub fn delete(mut words: WordIter<'_>) -> Option<CollHead<'_>>
    ensures { result ≡ row_read set_delete_row words.entry }
{
    let key = words.next_key()?;
    let len = next_len(&mut words)?;
    let (drop_empty, words) = skip_drop(words);
    answered_or_piped(
        CollCommand::SetDelete {
            key,
            len,
            drop_empty,
        },
        words,
    )
}

/// Reads what follows `sop exist`: `<key> <bytes> [pipe]`.
#[tactic(auto, unfolding(arc_core::specs::SetGrammar::set_exist_row))]
pub fn exist(mut words: WordIter<'_>) -> Option<CollHead<'_>>
    ensures { result ≡ row_read set_exist_row words.entry }
{
    let key = words.next_key()?;
    let len = next_len(&mut words)?;
    alone_or_piped(CollCommand::SetExist { key, len }, words)
}

/// Reads what follows `sop get`: `<key> <count> [delete|drop]`.
#[tactic(auto, unfolding(arc_core::specs::SetGrammar::set_get_row))]
pub fn get(mut words: WordIter<'_>) -> Option<CollHead<'_>>
    ensures { result ≡ row_read set_get_row words.entry }
{
    let key = words.next_key()?;
    let count = words.next_number(u64::from(u32::MAX))? as u32;
    let (take, words) = taking(words);
    alone(CollCommand::SetGet { key, count, take }, words)
}

//! The rows of the commands on lists, and `create` of every kind: how the words behind a command's name go on. (`lop` of
//! the ARCUS protocol; the limits are this server's own.)
ghost use Rattle.std.specs.Prelude.{◌≡◌};
ghost use Rattle.arc_core.specs.ListGrammar.{create_row, list_insert_row, list_delete_row, list_get_row};
ghost use Rattle.arc_core.specs.Rows.{row_read};

use crate::parts::{
    alone, answered, answered_or_piped, attributes, creation, next_index, next_len, next_range,
    skip_drop, taking,
};
use arc_core::{CollCommand, CollHead, Kind, WordIter};

/// Reads what follows `lop create`, `sop create` or `mop create`:
/// `<key> <flags> <exptime> <maxcount> [<action>] [unreadable] [noreply]`.
#[tactic(auto, unfolding(arc_core::specs::ListGrammar::create_row), using(crate::proofs::PartLemmas::attributes_are_read))]
pub fn create(kind: Kind, mut words: WordIter<'_>) -> Option<CollHead<'_>>
    ensures { result ≡ row_read (create_row kind) words.entry }
{
    let key = words.next_key()?;
    let (args, words) = attributes(kind, words)?;
    answered(CollCommand::Create { kind, key, args }, words)
}

/// Reads what follows `lop insert`:
/// `<key> <index> <bytes> [create <flags> <exptime> <maxcount> [<action>] [unreadable]] [noreply|pipe]`.
#[tactic(auto, unfolding(arc_core::specs::ListGrammar::list_insert_row), using(crate::proofs::PartLemmas::creation_is_read))]
pub fn insert(mut words: WordIter<'_>) -> Option<CollHead<'_>>
    ensures { result ≡ row_read list_insert_row words.entry }
{
    let key = words.next_key()?;
    let index = next_index(&mut words)?;
    let len = next_len(&mut words)?;
    let (create, words) = creation(Kind::List, words)?;
    answered_or_piped(
        CollCommand::ListInsert {
            key,
            index,
            len,
            create,
        },
        words,
    )
}

/// Reads what follows `lop delete`: `<key> <index or range> [drop] [noreply|pipe]`.
#[tactic(auto, unfolding(arc_core::specs::ListGrammar::list_delete_row))]
pub fn delete(mut words: WordIter<'_>) -> Option<CollHead<'_>>
    ensures { result ≡ row_read list_delete_row words.entry }
{
    let key = words.next_key()?;
    let range = next_range(&mut words)?;
    let (drop_empty, words) = skip_drop(words);
    answered_or_piped(
        CollCommand::ListDelete {
            key,
            range,
            drop_empty,
        },
        words,
    )
}

/// Reads what follows `lop get`: `<key> <index or range> [delete|drop]`.
#[tactic(auto, unfolding(arc_core::specs::ListGrammar::list_get_row))]
pub fn get(mut words: WordIter<'_>) -> Option<CollHead<'_>>
    ensures { result ≡ row_read list_get_row words.entry }
{
    let key = words.next_key()?;
    let range = next_range(&mut words)?;
    let (take, words) = taking(words);
    alone(CollCommand::ListGet { key, range, take }, words)
}

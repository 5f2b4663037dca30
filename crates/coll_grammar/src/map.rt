//! The rows of the commands on maps: how the words behind a command's name go on. (`mop` of the ARCUS protocol; `mop
//! upsert` and the limits are this server's own.)
ghost use Rattle.std.specs.Prelude.{◌≡◌};
ghost use Rattle.arc_core.specs.MapGrammar.{map_insert_row, map_update_row, map_upsert_row, map_delete_row, map_get_row};
ghost use Rattle.arc_core.specs.Rows.{row_read};

use crate::parts::{
    alone, answered_or_piped, creation, next_field, next_len, next_number_of_fields, skip_drop,
    taking,
};
use arc_core::{CollCommand, CollHead, Kind, WordIter};

/// Reads what follows `mop insert`:
/// `<key> <field> <bytes> [create <flags> <exptime> <maxcount> [<action>] [unreadable]] [noreply|pipe]`.
#[tactic(auto, unfolding(arc_core::specs::MapGrammar::map_insert_row), using(crate::proofs::PartLemmas::creation_is_read))]
pub fn insert(mut words: WordIter<'_>) -> Option<CollHead<'_>>
    ensures { result ≡ row_read map_insert_row words.entry }
{
    let key = words.next_key()?;
    let field = next_field(&mut words)?;
    let len = next_len(&mut words)?;
    let (create, words) = creation(Kind::Map, words)?;
    answered_or_piped(
        CollCommand::MapInsert {
            key,
            field,
            len,
            create,
        },
        words,
    )
}

/// Reads what follows `mop update`: `<key> <field> <bytes> [noreply|pipe]`.
#[tactic(auto, unfolding(arc_core::specs::MapGrammar::map_update_row))]
pub fn update(mut words: WordIter<'_>) -> Option<CollHead<'_>>
    ensures { result ≡ row_read map_update_row words.entry }
{
    let key = words.next_key()?;
    let field = next_field(&mut words)?;
    let len = next_len(&mut words)?;
    answered_or_piped(CollCommand::MapUpdate { key, field, len }, words)
}

/// Reads what follows `mop upsert`:
/// `<key> <field> <bytes> [create <flags> <exptime> <maxcount> [<action>] [unreadable]] [noreply|pipe]`.
#[tactic(auto, unfolding(arc_core::specs::MapGrammar::map_upsert_row), using(crate::proofs::PartLemmas::creation_is_read))]
pub fn upsert(mut words: WordIter<'_>) -> Option<CollHead<'_>>
    ensures { result ≡ row_read map_upsert_row words.entry }
{
    let key = words.next_key()?;
    let field = next_field(&mut words)?;
    let len = next_len(&mut words)?;
    let (create, words) = creation(Kind::Map, words)?;
    answered_or_piped(
        CollCommand::MapUpsert {
            key,
            field,
            len,
            create,
        },
        words,
    )
}

/// Reads what follows `mop delete`: `<key> <lenfields> <numfields> [drop] [noreply|pipe]`, with 1 to 50,000 fields, or `0 0`.
#[tactic(auto, unfolding(arc_core::specs::MapGrammar::map_delete_row))]
pub fn delete(mut words: WordIter<'_>) -> Option<CollHead<'_>>
    ensures { result ≡ row_read map_delete_row words.entry }
{
    let key = words.next_key()?;
    let len = next_len(&mut words)?;
    let number = next_number_of_fields(&mut words, len)?;
    let (drop_empty, words) = skip_drop(words);
    answered_or_piped(
        CollCommand::MapDelete {
            key,
            len,
            number,
            drop_empty,
        },
        words,
    )
}

/// Reads what follows `mop get`: `<key> <lenfields> <numfields> [delete|drop]`, with 1 to 50,000 fields, or `0 0`.
#[tactic(auto, unfolding(arc_core::specs::MapGrammar::map_get_row))]
pub fn get(mut words: WordIter<'_>) -> Option<CollHead<'_>>
    ensures { result ≡ row_read map_get_row words.entry }
{
    let key = words.next_key()?;
    let len = next_len(&mut words)?;
    let number = next_number_of_fields(&mut words, len)?;
    let (take, words) = taking(words);
    alone(
        CollCommand::MapGet {
            key,
            len,
            number,
            take,
        },
        words,
    )
}

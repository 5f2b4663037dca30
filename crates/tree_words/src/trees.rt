//! The rows of the commands on trees: how the words behind a command's name go on. (`bop` of the ARCUS protocol; the limits
//! are this server's own.)
ghost use Rattle.std.specs.Prelude.{◌≡◌};
ghost use Rattle.arc_core.specs.Rows.{row_read};
ghost use Rattle.tree_words.specs.TreeLines.{tree_create_row, tree_insert_row, tree_upsert_row, tree_update_row, tree_delete_row, tree_get_row, tree_count_row, tree_arith_row};

use crate::changes::change;
use crate::counts::{count_of, initial, initial_and_flag, next_len, offset_and_count};
use crate::creations::{attributes, creation, skip_drop, taking};
use crate::endings::{alone, answered, answered_or_piped, sent_or_getrim};
use crate::filters::filter;
use crate::ranges::{next_bkey, next_bkey_range, optional_eflag};
use crate::{TreeCommand, TreeHead};
use arc_core::{CollCommand, CollHead, Kind, TreeRead, WordIter};

/// Reads what follows `bop create`: `<key> <flags> <exptime> <maxcount> [<action>] [unreadable] [noreply]`.
#[tactic(auto, unfolding(crate::specs::TreeLines::tree_create_row), using(crate::proofs::PartLemmas::attributes_are_read))]
pub fn create(mut words: WordIter<'_>) -> Option<CollHead<'_>>
    ensures { result ≡ row_read tree_create_row words.entry }
{
    let key = words.next_key()?;
    let (args, words) = attributes(words)?;
    let kind = Kind::Tree;
    answered(CollCommand::Create { kind, key, args }, words)
}

/// Reads what follows `bop insert`:
/// `<key> <bkey> [<eflag>] <bytes> [create <flags> <exptime> <maxcount> [<action>] [unreadable]] [noreply|pipe|getrim]`.
#[tactic(auto, unfolding(crate::specs::TreeLines::tree_insert_row), using(crate::proofs::PartLemmas::creation_is_read, crate::proofs::PartLemmas::end_is_read))]
pub fn insert(mut words: WordIter<'_>) -> Option<TreeHead<'_>>
    ensures { result ≡ row_read tree_insert_row words.entry }
{
    let key = words.next_key()?;
    let bkey = next_bkey(&mut words)?;
    let (eflag, mut words) = optional_eflag(words);
    let len = next_len(&mut words)?;
    let (create, words) = creation(words)?;
    let (answer, getrim) = sent_or_getrim(words)?;
    let command = TreeCommand::TreeInsert {
        key,
        bkey,
        eflag,
        len,
        create,
        getrim,
    };
    Some(TreeHead { command, answer })
}

/// Reads what follows `bop upsert`:
/// `<key> <bkey> [<eflag>] <bytes> [create <flags> <exptime> <maxcount> [<action>] [unreadable]] [noreply|pipe|getrim]`.
#[tactic(auto, unfolding(crate::specs::TreeLines::tree_upsert_row), using(crate::proofs::PartLemmas::creation_is_read, crate::proofs::PartLemmas::end_is_read))]
pub fn upsert(mut words: WordIter<'_>) -> Option<TreeHead<'_>>
    ensures { result ≡ row_read tree_upsert_row words.entry }
{
    let key = words.next_key()?;
    let bkey = next_bkey(&mut words)?;
    let (eflag, mut words) = optional_eflag(words);
    let len = next_len(&mut words)?;
    let (create, words) = creation(words)?;
    let (answer, getrim) = sent_or_getrim(words)?;
    let command = TreeCommand::TreeUpsert {
        key,
        bkey,
        eflag,
        len,
        create,
        getrim,
    };
    Some(TreeHead { command, answer })
}

/// Reads what follows `bop update`: `<key> <bkey> [[<fwhere> <bitwop>] <fvalue>] <bytes> [noreply|pipe]`.
#[tactic(auto, unfolding(crate::specs::TreeLines::tree_update_row), using(crate::proofs::PartLemmas::change_is_read))]
pub fn update(mut words: WordIter<'_>) -> Option<TreeHead<'_>>
    ensures { result ≡ row_read tree_update_row words.entry }
{
    let key = words.next_key()?;
    let bkey = next_bkey(&mut words)?;
    let ((change, len), words) = change(words)?;
    answered_or_piped(
        TreeCommand::TreeUpdate {
            key,
            bkey,
            change,
            len,
        },
        words,
    )
}

/// Reads what follows `bop delete`: `<key> <bkey or range> [<filter>] [<count>] [drop] [noreply|pipe]`.
#[tactic(auto, unfolding(crate::specs::TreeLines::tree_delete_row), using(crate::proofs::PartLemmas::filter_is_read))]
pub fn delete(mut words: WordIter<'_>) -> Option<TreeHead<'_>>
    ensures { result ≡ row_read tree_delete_row words.entry }
{
    let key = words.next_key()?;
    let range = next_bkey_range(&mut words)?;
    let (filter, words) = filter(words)?;
    let (count, words) = count_of(words);
    let (drop_empty, words) = skip_drop(words);
    let read = TreeRead {
        range,
        filter,
        offset: 0,
        count,
    };
    answered_or_piped(
        TreeCommand::TreeDelete {
            key,
            read,
            drop_empty,
        },
        words,
    )
}

/// Reads what follows `bop get`: `<key> <bkey or range> [<filter>] [[<offset>] <count>] [delete|drop]`.
#[tactic(auto, unfolding(crate::specs::TreeLines::tree_get_row), using(crate::proofs::PartLemmas::filter_is_read))]
pub fn get(mut words: WordIter<'_>) -> Option<TreeHead<'_>>
    ensures { result ≡ row_read tree_get_row words.entry }
{
    let key = words.next_key()?;
    let range = next_bkey_range(&mut words)?;
    let (filter, words) = filter(words)?;
    let ((offset, count), words) = offset_and_count(words);
    let (take, words) = taking(words);
    let read = TreeRead {
        range,
        filter,
        offset,
        count,
    };
    alone(TreeCommand::TreeGet { key, read, take }, words)
}

/// Reads what follows `bop count`: `<key> <bkey or range> [<filter>]`.
#[tactic(auto, unfolding(crate::specs::TreeLines::tree_count_row), using(crate::proofs::PartLemmas::filter_is_read))]
pub fn count(mut words: WordIter<'_>) -> Option<TreeHead<'_>>
    ensures { result ≡ row_read tree_count_row words.entry }
{
    let key = words.next_key()?;
    let range = next_bkey_range(&mut words)?;
    let (filter, words) = filter(words)?;
    alone(TreeCommand::TreeCount { key, range, filter }, words)
}

/// Reads what follows `bop incr` or `bop decr`: `<key> <bkey> <delta> [<initial> [<eflag>]] [noreply|pipe]`.
#[tactic(auto, unfolding(crate::specs::TreeLines::tree_arith_row))]
pub fn arith(up: bool, mut words: WordIter<'_>) -> Option<TreeHead<'_>>
    ensures { result ≡ row_read (tree_arith_row up) words.entry }
{
    let key = words.next_key()?;
    let bkey = next_bkey(&mut words)?;
    let delta = words.next_number(u64::MAX)?;
    let (said, words) = initial(words);
    let (initial, eflag) = initial_and_flag(said);
    answered_or_piped(
        TreeCommand::TreeArith {
            up,
            key,
            bkey,
            delta,
            initial,
            eflag,
        },
        words,
    )
}

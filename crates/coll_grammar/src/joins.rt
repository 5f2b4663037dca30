//! Requests: what a line spells, with the block that follows it.
ghost use Rattle.std.specs.Prelude.{◌≡◌, false, true, Some, option_map};
ghost use Rattle.std.specs.Result.{result_ok};
ghost use Rattle.arc_core.specs.CollectionLines.{coll_act_of, coll_is_quit, coll_need_of, coll_request_of};
ghost use Rattle.arc_core.specs.Grammar.{Meets};
ghost use Rattle.arc_core.specs.PlainRequest.{plain, plain_act};
ghost use Rattle.coll_grammar.specs.Joining.{is_on_list, is_on_set, is_on_pair, is_on_fields};

use arc_core::{Act, BlockFault, CollCommand, CollHead, KeyWords, Request};

/// The request of a head and the block that follows its line; it borrows both.
///
/// The fault comes exactly where the block's words are not so many keys or fields as the line names. The head may not be
/// `quit`, and the block has to be one that it may have: none where it needs none, else of the length that it names,
/// within its limit. Takes no memory.
pub fn join<'a>(head: CollHead<'a>, block: &'a [u8]) -> Result<Request<'a>, BlockFault>
    requires goes_on { coll_is_quit head ≡ false }
    requires block { Meets (coll_need_of head) block.now }
    ensures { option_map plain (result_ok result) ≡ coll_request_of head.entry block.now }
{
    match head {
        CollHead::KeyValue(head) => head.with_block(block),
        CollHead::Collection { command, answer } => {
            let act = act_of(command, block)?;
            Ok(Request { act, answer })
        }
    }
}

// What a command on a collection does, with its block.
fn act_of<'a>(command: CollCommand<'a>, block: &'a [u8]) -> Result<Act<'a>, BlockFault>
    ensures { option_map plain_act (result_ok result) ≡ coll_act_of command.entry block.now }
{
    match command {
        CollCommand::Create { kind, key, args } => Ok(Act::Create { kind, key, args }),
        CollCommand::ListInsert { .. }
        | CollCommand::ListDelete { .. }
        | CollCommand::ListGet { .. } => Ok(on_list(command, block)),
        CollCommand::SetInsert { .. }
        | CollCommand::SetDelete { .. }
        | CollCommand::SetExist { .. }
        | CollCommand::SetGet { .. } => Ok(on_set(command, block)),
        CollCommand::MapInsert { .. }
        | CollCommand::MapUpdate { .. }
        | CollCommand::MapUpsert { .. } => Ok(on_pair(command, block)),
        CollCommand::MapDelete { .. } | CollCommand::MapGet { .. } => on_fields(command, block),
    }
}

fn on_list<'a>(command: CollCommand<'a>, block: &'a [u8]) -> Act<'a>
    requires { is_on_list command ≡ true }
    ensures { Some (plain_act result) ≡ coll_act_of command.entry block.now }
{
    match command {
        CollCommand::ListInsert {
            key,
            index,
            len: _,
            create,
        } => Act::ListInsert {
            key,
            index,
            value: block,
            create,
        },
        CollCommand::ListDelete {
            key,
            range,
            drop_empty,
        } => Act::ListDelete {
            key,
            range,
            drop_empty,
        },
        CollCommand::ListGet { key, range, take } => Act::ListGet { key, range, take },
        _ => unreachable!(),
    }
}

fn on_set<'a>(command: CollCommand<'a>, block: &'a [u8]) -> Act<'a>
    requires { is_on_set command ≡ true }
    ensures { Some (plain_act result) ≡ coll_act_of command.entry block.now }
{
    let value = block;
    match command {
        CollCommand::SetInsert {
            key,
            len: _,
            create,
        } => Act::SetInsert { key, value, create },
        CollCommand::SetDelete {
            key,
            len: _,
            drop_empty,
        } => Act::SetDelete {
            key,
            value,
            drop_empty,
        },
        CollCommand::SetExist { key, len: _ } => Act::SetExist { key, value },
        CollCommand::SetGet { key, count, take } => Act::SetGet { key, count, take },
        _ => unreachable!(),
    }
}

// On one pair of a map.
fn on_pair<'a>(command: CollCommand<'a>, block: &'a [u8]) -> Act<'a>
    requires { is_on_pair command ≡ true }
    ensures { Some (plain_act result) ≡ coll_act_of command.entry block.now }
{
    let value = block;
    match command {
        CollCommand::MapInsert {
            key,
            field,
            len: _,
            create,
        } => Act::MapInsert {
            key,
            field,
            value,
            create,
        },
        CollCommand::MapUpdate { key, field, len: _ } => Act::MapUpdate { key, field, value },
        CollCommand::MapUpsert {
            key,
            field,
            len: _,
            create,
        } => Act::MapUpsert {
            key,
            field,
            value,
            create,
        },
        _ => unreachable!(),
    }
}

// On so many fields of a map, which stand in the block.
fn on_fields<'a>(command: CollCommand<'a>, block: &'a [u8]) -> Result<Act<'a>, BlockFault>
    requires { is_on_fields command ≡ true }
    ensures { option_map plain_act (result_ok result) ≡ coll_act_of command.entry block.now }
{
    Ok(match command {
        CollCommand::MapDelete {
            key,
            len: _,
            number,
            drop_empty,
        } => Act::MapDelete {
            key,
            fields: KeyWords::fields(block, number).ok_or(BlockFault)?,
            drop_empty,
        },
        CollCommand::MapGet {
            key,
            len: _,
            number,
            take,
        } => Act::MapGet {
            key,
            fields: KeyWords::fields(block, number).ok_or(BlockFault)?,
            take,
        },
        _ => unreachable!(),
    })
}

//! The names of commands.
ghost use Rattle.std.specs.Prelude.{◌≡◌, length};
ghost use Rattle.arc_core.specs.Grammar.{command_of};

use arc_core::CommandName;

/// The command that a line's first word names. Names differ by their lengths first.
#[tactic(auto, unfolding(arc_core::specs::Grammar::command_of))]
pub fn name_of(word: &[u8]) -> Option<CommandName>
    ensures { result ≡ command_of word.now }
{
    match word.len() {
        3 => name_of_3(word),
        4 => name_of_4(word),
        5 => name_of_5(word),
        6 => name_of_6(word),
        7 => name_of_7(word),
        9 => name_of_9(word),
        _ => None,
    }
}

#[tactic(auto, unfolding(arc_core::specs::Grammar::command_of))]
fn name_of_3(word: &[u8]) -> Option<CommandName>
    requires { length word.now ≡ 3 }
    ensures { result ≡ command_of word.now }
{
    if word == b"set".as_slice() {
        return Some(CommandName::Set);
    }
    if word == b"get".as_slice() {
        return Some(CommandName::Get);
    }
    if word == b"add".as_slice() {
        return Some(CommandName::Add);
    }
    if word == b"cas".as_slice() {
        return Some(CommandName::Cas);
    }
    None
}

#[tactic(auto, unfolding(arc_core::specs::Grammar::command_of))]
fn name_of_4(word: &[u8]) -> Option<CommandName>
    requires { length word.now ≡ 4 }
    ensures { result ≡ command_of word.now }
{
    if word == b"gets".as_slice() {
        return Some(CommandName::Gets);
    }
    if word == b"mget".as_slice() {
        return Some(CommandName::Mget);
    }
    if word == b"incr".as_slice() {
        return Some(CommandName::Incr);
    }
    if word == b"decr".as_slice() {
        return Some(CommandName::Decr);
    }
    if word == b"quit".as_slice() {
        return Some(CommandName::Quit);
    }
    None
}

#[tactic(auto, unfolding(arc_core::specs::Grammar::command_of))]
fn name_of_5(word: &[u8]) -> Option<CommandName>
    requires { length word.now ≡ 5 }
    ensures { result ≡ command_of word.now }
{
    if word == b"touch".as_slice() {
        return Some(CommandName::Touch);
    }
    None
}

#[tactic(auto, unfolding(arc_core::specs::Grammar::command_of))]
fn name_of_6(word: &[u8]) -> Option<CommandName>
    requires { length word.now ≡ 6 }
    ensures { result ≡ command_of word.now }
{
    if word == b"append".as_slice() {
        return Some(CommandName::Append);
    }
    if word == b"delete".as_slice() {
        return Some(CommandName::Delete);
    }
    None
}

#[tactic(auto, unfolding(arc_core::specs::Grammar::command_of))]
fn name_of_7(word: &[u8]) -> Option<CommandName>
    requires { length word.now ≡ 7 }
    ensures { result ≡ command_of word.now }
{
    if word == b"replace".as_slice() {
        return Some(CommandName::Replace);
    }
    if word == b"prepend".as_slice() {
        return Some(CommandName::Prepend);
    }
    if word == b"version".as_slice() {
        return Some(CommandName::Version);
    }
    None
}

#[tactic(auto, unfolding(arc_core::specs::Grammar::command_of))]
fn name_of_9(word: &[u8]) -> Option<CommandName>
    requires { length word.now ≡ 9 }
    ensures { result ≡ command_of word.now }
{
    if word == b"flush_all".as_slice() {
        return Some(CommandName::FlushAll);
    }
    None
}

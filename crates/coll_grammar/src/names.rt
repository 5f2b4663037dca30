//! The names of commands on collections.
ghost use Rattle.std.specs.Prelude.{◌≡◌, length};
ghost use Rattle.arc_core.specs.CollectionLines.{coll_name_of, list_name_of, set_name_of, map_name_of};

use arc_core::CollName;

/// The command that a line's first two words name. Second words differ by their lengths first.
#[tactic(auto, unfolding(arc_core::specs::CollectionLines::coll_name_of))]
pub fn name_of(first: &[u8], second: &[u8]) -> Option<CollName>
    ensures { result ≡ coll_name_of first.now second.now }
{
    if first == b"lop".as_slice() {
        return list_name(second);
    }
    if first == b"sop".as_slice() {
        return set_name(second);
    }
    if first == b"mop".as_slice() {
        return map_name(second);
    }
    None
}

// The command that a word names behind `lop`.
fn list_name(word: &[u8]) -> Option<CollName>
    ensures { result ≡ list_name_of word.now }
{
    match word.len() {
        3 => list_name_of_3(word),
        6 => list_name_of_6(word),
        _ => None,
    }
}

fn list_name_of_3(word: &[u8]) -> Option<CollName>
    requires { length word.now ≡ 3 }
    ensures { result ≡ list_name_of word.now }
{
    if word == b"get".as_slice() {
        return Some(CollName::ListGet);
    }
    None
}

fn list_name_of_6(word: &[u8]) -> Option<CollName>
    requires { length word.now ≡ 6 }
    ensures { result ≡ list_name_of word.now }
{
    if word == b"insert".as_slice() {
        return Some(CollName::ListInsert);
    }
    if word == b"delete".as_slice() {
        return Some(CollName::ListDelete);
    }
    if word == b"create".as_slice() {
        return Some(CollName::ListCreate);
    }
    None
}

// The command that a word names behind `sop`.
fn set_name(word: &[u8]) -> Option<CollName>
    ensures { result ≡ set_name_of word.now }
{
    match word.len() {
        3 => set_name_of_3(word),
        5 => set_name_of_5(word),
        6 => set_name_of_6(word),
        _ => None,
    }
}

fn set_name_of_3(word: &[u8]) -> Option<CollName>
    requires { length word.now ≡ 3 }
    ensures { result ≡ set_name_of word.now }
{
    if word == b"get".as_slice() {
        return Some(CollName::SetGet);
    }
    None
}

fn set_name_of_5(word: &[u8]) -> Option<CollName>
    requires { length word.now ≡ 5 }
    ensures { result ≡ set_name_of word.now }
{
    if word == b"exist".as_slice() {
        return Some(CollName::SetExist);
    }
    None
}

fn set_name_of_6(word: &[u8]) -> Option<CollName>
    requires { length word.now ≡ 6 }
    ensures { result ≡ set_name_of word.now }
{
    if word == b"insert".as_slice() {
        return Some(CollName::SetInsert);
    }
    if word == b"delete".as_slice() {
        return Some(CollName::SetDelete);
    }
    if word == b"create".as_slice() {
        return Some(CollName::SetCreate);
    }
    None
}

// The command that a word names behind `mop`.
fn map_name(word: &[u8]) -> Option<CollName>
    ensures { result ≡ map_name_of word.now }
{
    match word.len() {
        3 => map_name_of_3(word),
        6 => map_name_of_6(word),
        _ => None,
    }
}

fn map_name_of_3(word: &[u8]) -> Option<CollName>
    requires { length word.now ≡ 3 }
    ensures { result ≡ map_name_of word.now }
{
    if word == b"get".as_slice() {
        return Some(CollName::MapGet);
    }
    None
}

fn map_name_of_6(word: &[u8]) -> Option<CollName>
    requires { length word.now ≡ 6 }
    ensures { result ≡ map_name_of word.now }
{
    if word == b"insert".as_slice() {
        return Some(CollName::MapInsert);
    }
    if word == b"update".as_slice() {
        return Some(CollName::MapUpdate);
    }
    if word == b"upsert".as_slice() {
        return Some(CollName::MapUpsert);
    }
    if word == b"delete".as_slice() {
        return Some(CollName::MapDelete);
    }
    if word == b"create".as_slice() {
        return Some(CollName::MapCreate);
    }
    None
}

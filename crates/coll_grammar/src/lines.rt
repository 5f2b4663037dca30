//! Whole lines.
ghost use Rattle.std.specs.Prelude.{◌≡◌, ◌↔◌, true, false, List, ℕ, Some, None, IfOk, Ok, Err, MatchResult};
ghost use Rattle.arc_core.specs.declared.outside.Need.TheVariants as need;
ghost use Rattle.arc_core.specs.Rows.{row_read};
ghost use Rattle.arc_core.specs.declared.coll_commands.CollHead.{CollHead};
ghost use Rattle.arc_core.specs.CollectionLines.{IsCollHead, IsCollUnknown, IsCollBadFormat, IsBadBlock, IsQuit, SpellsRequest, coll_head_of, coll_line_needs, coll_line_is_silent, coll_need_of, coll_answer, coll_is_quit, coll_row_of};
ghost use Rattle.arc_core.specs.Grammar.{is_silent};
ghost use Rattle.arc_core.specs.Words.{words};
ghost use Rattle.arc_core.specs.PlainRequest.{PlainRequest};
ghost use Rattle.coll_grammar.specs.Reading.{answer_to};

use crate::names::name_of;
use crate::{LineFault, list, map, set};
use arc_core::{CollHead, CollName, Heads, Kind, Need, WordIter};
use line_grammar::read_line;

/// Reads a line, given without its line end: a key-value command, or one on a list, a set or a map.
///
/// A line spells at most one head, and where it spells one that is the answer. `Unknown` comes exactly where the line
/// has no word, or its first word names no command and its first two words name none on a collection; `BadFormat` exactly
/// where they name one, and the further words do not spell it. Takes no memory. (Which of the two faults a line has is
/// this server's own rule.)
pub fn read_head(line: &[u8]) -> Result<CollHead<'_>, LineFault>
    ensures found { IfOk result (λ head. IsCollHead line.now head) }
    ensures only { (head : CollHead) → IsCollHead line.now head → result ≡ Ok head }
    ensures unknown { (result ≡ Err LineFault.Unknown) ↔ IsCollUnknown line.now }
    ensures bad_format { (result ≡ Err LineFault.BadFormat) ↔ IsCollBadFormat line.now }
    ensures read { MatchResult result
        (λ head. coll_head_of (words line.now) ≡ Some head)
        (λ _. coll_head_of (words line.now) ≡ None) }
    ensures needs { MatchResult result
        (λ head. coll_line_needs line.now ≡ coll_need_of head)
        (λ _. coll_line_needs line.now ≡ need.Nothing) }
    ensures silent { MatchResult result
        (λ head. coll_line_is_silent line.now ≡ is_silent (coll_answer head))
        (λ _. coll_line_is_silent line.now ≡ false) }
{
    match read_line(line) {
        Ok(head) => Ok(CollHead::KeyValue(head)),
        Err(LineFault::BadFormat) => Err(LineFault::BadFormat),
        Err(LineFault::Unknown) => read_words(WordIter::of(line)),
    }
}

// The one answer to a line's words, where they are no key-value command.
fn read_words(mut words: WordIter<'_>) -> Result<CollHead<'_>, LineFault>
    ensures { result ≡ answer_to words.entry }
{
    let first = words.next().ok_or(LineFault::Unknown)?;
    let second = words.next().ok_or(LineFault::Unknown)?;
    let name = name_of(first, second).ok_or(LineFault::Unknown)?;
    read_row(name, words).ok_or(LineFault::BadFormat)
}

// The head that the words behind a command's two spell.
fn read_row(name: CollName, words: WordIter<'_>) -> Option<CollHead<'_>>
    ensures { result ≡ row_read (coll_row_of name) words.entry }
{
    match name {
        CollName::ListCreate => list::create(Kind::List, words),
        CollName::ListInsert => list::insert(words),
        CollName::ListDelete => list::delete(words),
        CollName::ListGet => list::get(words),
        CollName::SetCreate => list::create(Kind::Set, words),
        CollName::SetInsert => set::insert(words),
        CollName::SetDelete => set::delete(words),
        CollName::SetExist => set::exist(words),
        CollName::SetGet => set::get(words),
        CollName::MapCreate => list::create(Kind::Map, words),
        CollName::MapInsert => map::insert(words),
        CollName::MapUpdate => map::update(words),
        CollName::MapUpsert => map::upsert(words),
        CollName::MapDelete => map::delete(words),
        CollName::MapGet => map::get(words),
    }
}

/// A line spells at most one head, and a line and its block spell at most one request.
///
/// The function does nothing: this law is its contract.
pub fn line_spells_one_head()
    ensures heads { (line : List ℕ) (one other : CollHead) → IsCollHead line one → IsCollHead line other → one ≡ other }
    ensures requests { (line block : List ℕ) (one other : PlainRequest) →
        SpellsRequest line block one → SpellsRequest line block other → one ≡ other }
{
    line_grammar::line_spells_one_head();
}

/// A line that spells a head has none of the faults of lines.
///
/// The function does nothing: this law is its contract.
pub fn head_is_no_fault()
    ensures known { (line : List ℕ) (head : CollHead) → IsCollHead line head → IsCollUnknown line → ⊥ }
    ensures well_formed { (line : List ℕ) (head : CollHead) → IsCollHead line head → IsCollBadFormat line → ⊥ }
{
    line_grammar::head_is_no_fault();
}

/// A line that ends the session spells nothing else, whatever block is taken with it: no head that does not end it, no
/// request, and none of the faults of lines.
///
/// The function does nothing: this law is its contract.
pub fn quit_is_nothing_else()
    ensures heads { (line : List ℕ) (head : CollHead) → IsQuit line → IsCollHead line head → coll_is_quit head ≡ true }
    ensures requests { (line block : List ℕ) (request : PlainRequest) → IsQuit line → SpellsRequest line block request → ⊥ }
    ensures known { (line : List ℕ) → IsQuit line → IsCollUnknown line → ⊥ }
    ensures well_formed { (line : List ℕ) → IsQuit line → IsCollBadFormat line → ⊥ }
{
    line_grammar::line_spells_one_head();
    head_is_no_fault();
}

/// A line spells no request with a block that is not so many keys or fields as it names.
///
/// The function does nothing: this law is its contract.
pub fn bad_block_is_no_request()
    ensures { (line block : List ℕ) (request : PlainRequest) →
        IsBadBlock line block → SpellsRequest line block request → ⊥ }
{
    line_grammar::line_spells_one_head();
}

/// Knows which lines ask for a block.
#[derive(Clone, Copy, Debug, PartialEq, Eq)]
pub struct AllHeads;

impl Heads for AllHeads {
    ghost needs = { coll_line_needs };

    fn need(&self, line: &[u8]) -> Need {
        match read_head(line) {
            Ok(head) => head.need(),
            Err(_) => Need::Nothing,
        }
    }
}

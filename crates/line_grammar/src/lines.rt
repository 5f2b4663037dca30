//! Whole lines.
ghost use Rattle.std.specs.Prelude.{◌≡◌, ◌↔◌, false, List, ℕ, IfOk, Ok, Err, MatchResult};
ghost use Rattle.arc_core.specs.declared.outside.Need.TheVariants as need;
ghost use Rattle.arc_core.specs.Rows.{row_read};
ghost use Rattle.arc_core.specs.declared.commands.Head.{Head};
ghost use Rattle.arc_core.specs.Grammar.{IsHead, IsUnknown, IsBadFormat, line_needs, line_is_silent, need_of, is_silent, row_of};
ghost use Rattle.line_grammar.specs.Reading.{answer_to};

use crate::names::name_of;
use crate::{LineFault, kv};
use arc_core::{CommandName, Head, Heads, Need, StoreVerb, WordIter};

/// Reads a line, given without its line end.
///
/// A line spells at most one head, and where it spells one that is the answer. `Unknown` comes exactly where the line
/// has no word or its first word names no command; `BadFormat` exactly where it names one, and the further words do
/// not spell it. Takes no memory. (Which of the two faults a line has is this server's own rule.)
pub fn read_line(line: &[u8]) -> Result<Head<'_>, LineFault>
    ensures found { IfOk result (λ head. IsHead line.now head) }
    ensures only { (head : Head) → IsHead line.now head → result ≡ Ok head }
    ensures unknown { (result ≡ Err LineFault.Unknown) ↔ IsUnknown line.now }
    ensures bad_format { (result ≡ Err LineFault.BadFormat) ↔ IsBadFormat line.now }
    ensures needs { MatchResult result
        (λ head. line_needs line.now ≡ need_of head.command)
        (λ _. line_needs line.now ≡ need.Nothing) }
    ensures silent { MatchResult result
        (λ head. line_is_silent line.now ≡ is_silent head.answer)
        (λ _. line_is_silent line.now ≡ false) }
{
    read_words(WordIter::of(line))
}

// The one answer to a line's words, from which the clauses of `read_line` follow by laws.
fn read_words(mut words: WordIter<'_>) -> Result<Head<'_>, LineFault>
    ensures { result ≡ answer_to words.entry }
{
    let name = words.next().and_then(name_of).ok_or(LineFault::Unknown)?;
    read_row(name, words).ok_or(LineFault::BadFormat)
}

// The head that the words behind a command's name spell.
fn read_row(name: CommandName, words: WordIter<'_>) -> Option<Head<'_>>
    ensures { result ≡ row_read (row_of name) words.entry }
{
    match name {
        CommandName::Set => kv::store(StoreVerb::Set, words),
        CommandName::Add => kv::store(StoreVerb::Add, words),
        CommandName::Replace => kv::store(StoreVerb::Replace, words),
        CommandName::Append => kv::store(StoreVerb::Append, words),
        CommandName::Prepend => kv::store(StoreVerb::Prepend, words),
        CommandName::Cas => kv::cas(words),
        CommandName::Get => kv::get(false, words),
        CommandName::Gets => kv::get(true, words),
        CommandName::Mget => kv::mget(words),
        CommandName::Incr => kv::count(true, words),
        CommandName::Decr => kv::count(false, words),
        CommandName::Delete => kv::delete(words),
        CommandName::Touch => kv::touch(words),
        CommandName::FlushAll => kv::flush_all(words),
        CommandName::Version => kv::version(words),
        CommandName::Quit => kv::quit(words),
    }
}

/// A line spells at most one head.
///
/// The function does nothing: this law is its contract.
pub fn line_spells_one_head()
    ensures { (line : List ℕ) (one other : Head) → IsHead line one → IsHead line other → one ≡ other }
{}

/// A line that spells a head has none of the faults of lines.
///
/// The function does nothing: this law is its contract.
pub fn head_is_no_fault()
    ensures known { (line : List ℕ) (head : Head) → IsHead line head → IsUnknown line → ⊥ }
    ensures well_formed { (line : List ℕ) (head : Head) → IsHead line head → IsBadFormat line → ⊥ }
{}

/// Knows which key-value lines ask for a block.
#[derive(Clone, Copy, Debug, PartialEq, Eq)]
pub struct KvHeads;

impl Heads for KvHeads {
    ghost needs = { line_needs };

    fn need(&self, line: &[u8]) -> Need {
        match read_line(line) {
            Ok(head) => head.need(),
            Err(_) => Need::Nothing,
        }
    }
}

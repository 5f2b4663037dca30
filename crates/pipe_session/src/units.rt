//! Handles the units of a session.
ghost use Rattle.std.specs.Prelude.{◌≡◌, ◌<◌, ◌≤◌, ◌^◌, ◌++◌, ℕ, List, [], length, true, false, is_some, if◌then◌else◌, Option, Some, None, IfSome};
ghost use Rattle.arc_core.specs.Framing.{IsSpan};
ghost use Rattle.arc_core.specs.declared.coll_commands.CollHead.TheVariants as coll_head;
ghost use Rattle.arc_core.specs.CollectionLines.{CanBeSpelled, IsCollHead, coll_is_quit, coll_line_is_silent, coll_line_needs, coll_need_of};
ghost use Rattle.arc_core.specs.Grammar.{Meets};
ghost use Rattle.arc_core.specs.PlainRequest.{plain, plain_act};
ghost use Rattle.arc_core.specs.ReplyText.{reply_text};
ghost use Rattle.arc_core.specs.Words.{words};
ghost use Rattle.frame_reader.specs.Units.{whole_of};
ghost use Rattle.reply_print.specs.PipeText.{status_of};
ghost use Rattle.pipe_session.specs.SessionText.{act_may_be_piped, command_may_be_piped, head_is_piped, have_piped_form, is_collection_word, last_word, line_is_marked, may_end_a_run};
ghost use Rattle.pipe_session.specs.Runs.{Kept, TakesOne, answer_of, no_run};
ghost use Rattle.pipe_session.specs.Handling.{stand, ExecutesOne, IsTold, IsToldAlone, GoesOnInRun, EndsRun, HeadStatus, RequestStatus, WordStatus, head_facts, word_facts, TellsHead, HasItsBlock, HandlesLine, HandlesUnit, TakesFront, TakesNext};
ghost use Rattle.pipe_session.specs.Owing.{HasRoom};
ghost use Rattle.pipe_session.specs.Units.{IsBetweenUnits};
ghost use Rattle.pipe_session.specs.Turns.{IsReadingBehind};

use crate::desk::Desk;
use crate::owed::Owed;
use crate::phase::Phase;
use arc_core::{
    Act, Answer, BlockFault, Clock, CollCommand, CollHead, Head, Need, PipeStatus, Reply, Request,
    Word, WordIter,
};
use coll_grammar::{AllHeads, LineFault, join, read_head};
use frame_reader::{Frames, Unit, front_block, front_line, fronts_are_units};
use reply_print::status_of;

// Whether a command may be piped.
fn may_be_piped(command: &CollCommand<'_>) -> bool
    ensures { result ≡ command_may_be_piped command.now }
{
    !matches!(
        command,
        CollCommand::Create { .. }
            | CollCommand::ListGet { .. }
            | CollCommand::SetGet { .. }
            | CollCommand::MapGet { .. }
    )
}

// Whether a head is a piped command.
fn is_piped(head: &CollHead<'_>) -> bool
    ensures { result ≡ head_is_piped head.now }
{
    match head {
        CollHead::KeyValue(_) => false,
        CollHead::Collection { command, .. } => head.is_marked() && may_be_piped(command),
    }
}

// Whether a request that is not piped may be a run's last one.
fn may_end_a_run(request: &Request<'_>) -> bool
    ensures { result ≡ may_end_a_run (plain request.now) }
{
    match request.answer {
        Answer::Plain => is_change(&request.act),
        Answer::NoReply | Answer::Pipe => false,
    }
}

// Whether a request changes elements, or asks whether a set has a value.
fn is_change(act: &Act<'_>) -> bool
    ensures { result ≡ act_may_be_piped (plain_act act.now) }
{
    match act {
        Act::ListInsert { .. }
        | Act::ListDelete { .. }
        | Act::SetInsert { .. }
        | Act::SetDelete { .. }
        | Act::SetExist { .. }
        | Act::MapInsert { .. }
        | Act::MapUpdate { .. }
        | Act::MapUpsert { .. }
        | Act::MapDelete { .. } => true,
        Act::Store { .. }
        | Act::Get { .. }
        | Act::Count { .. }
        | Act::Delete { .. }
        | Act::Touch { .. }
        | Act::FlushAll
        | Act::Version
        | Act::Create { .. }
        | Act::ListGet { .. }
        | Act::SetGet { .. }
        | Act::MapGet { .. } => false,
    }
}

// Whether a line that spells no command has the form of a piped one.
fn has_piped_form(line: &[u8]) -> bool
    ensures { result ≡ have_piped_form (words line.now) }
{
    let mut words = WordIter::of(line);
    match words.next() {
        Some(first) => begins_collections(first) && last_word(first, words) == b"pipe".as_slice(),
        None => false,
    }
}

// Whether commands on collections begin with this word.
fn begins_collections(word: &[u8]) -> bool
    ensures { result ≡ is_collection_word word.now }
{
    word == b"lop".as_slice()
        || word == b"sop".as_slice()
        || word == b"mop".as_slice()
        || word == b"bop".as_slice()
}

// The last of words, of which this one is the first.
fn last_word<'a>(first: &'a [u8], words: WordIter<'a>) -> &'a [u8]
    ensures { result.now ≡ last_word first.now words.entry }
{
    let mut last = first;
    for word in words {
        last = word;
    }
    last
}

// Has a request executed at the clock's second.
fn answer<D: Desk, C: Clock>(desk: &mut D, clock: &mut C, request: &Request<'_>) -> Reply
    requires ready { D.ready desk.old }
    requires spelled { CanBeSpelled (plain request.now) }
    ensures executed { ExecutesOne D.answers desk.old (C.coming clock.old) (plain request.now) result desk.new (C.coming clock.new) }
    ensures text { length (reply_text result) < 2 ^ 64 }
    ensures status { act_may_be_piped (plain request.now).act ≡ true → is_some (status_of result) ≡ true }
{
    let now = clock.second();
    desk.answer(now, request)
}

// Has a request of a run executed, and tells its status.
fn answer_in_run<D: Desk, C: Clock>(
    desk: &mut D,
    clock: &mut C,
    request: &Request<'_>,
) -> PipeStatus
    requires ready { D.ready desk.old }
    requires spelled { CanBeSpelled (plain request.now) }
    requires piped { act_may_be_piped (plain request.now).act ≡ true }
    ensures { (reply : Reply) × ExecutesOne D.answers desk.old (C.coming clock.old) (plain request.now) reply desk.new (C.coming clock.new)
        × (status_of reply ≡ Some result) }
{
    let reply = answer(desk, clock, request);
    match status_of(&reply) {
        Some(status) => status,
        None => unreachable!(),
    }
}

// Has a request of a run executed, where the run takes one more, and keeps its status.
fn take_request<D: Desk, C: Clock>(
    desk: &mut D,
    clock: &mut C,
    owed: &mut Owed,
    request: &Request<'_>,
)
    requires ready { D.ready desk.old }
    requires spelled { CanBeSpelled (plain request.now) }
    requires piped { act_may_be_piped (plain request.now).act ≡ true }
    ensures goes_on { GoesOnInRun D.answers (RequestStatus (plain request.now)) (stand desk.old (C.coming clock.old) owed.old.text owed.old.run)
        (stand desk.new (C.coming clock.new) owed.new.text owed.new.run) }
    ensures room { owed.new.is_full ≡ owed.old.is_full }
{
    if !owed.takes_one() {
        return;
    }
    let status = answer_in_run(desk, clock, request);
    owed.put_status(status);
}

// Has a piped command executed, where its run takes one more, and keeps its status.
fn execute_piped<'a, D: Desk, C: Clock>(
    desk: &mut D,
    clock: &mut C,
    owed: &mut Owed,
    head: CollHead<'a>,
    block: &'a [u8],
)
    requires ready { D.ready desk.old }
    requires spelled { (line : List ℕ) × IsCollHead line head }
    requires block { Meets (coll_need_of head) block.now }
    requires goes_on { coll_is_quit head ≡ false }
    requires piped { head_is_piped head ≡ true }
    ensures { GoesOnInRun D.answers (HeadStatus head.entry block.now) (stand desk.old (C.coming clock.old) owed.old.text owed.old.run)
        (stand desk.new (C.coming clock.new) owed.new.text owed.new.run) }
{
    match join(head, block) {
        Ok(request) => take_request(desk, clock, owed, &request),
        Err(BlockFault) => take_word(owed, Word::BadChunk),
    }
}

// Handles a head behind a run that is open, which is no piped command: it is the run's last one, or breaks it off.
fn execute_behind_run<'a, D: Desk, C: Clock>(
    desk: &mut D,
    clock: &mut C,
    owed: &mut Owed,
    head: CollHead<'a>,
    block: &'a [u8],
)
    requires ready { D.ready desk.old }
    requires room { owed.old.is_full ≡ false }
    requires spelled { (line : List ℕ) × IsCollHead line head }
    requires block { Meets (coll_need_of head) block.now }
    requires goes_on { coll_is_quit head ≡ false }
    requires in_run { owed.old.run.is_open ≡ true }
    requires alone { head_is_piped head ≡ false }
    ensures { IsTold D.answers (head_facts head.entry block.now) (stand desk.old (C.coming clock.old) owed.old.text owed.old.run)
        (stand desk.new (C.coming clock.new) owed.new.text owed.new.run) }
{
    let silent = head.is_silent();
    match join(head, block) {
        Ok(request) => {
            if may_end_a_run(&request) {
                end_run_by(desk, clock, owed, &request);
            } else {
                owed.break_run();
                answer_alone(desk, clock, owed, &request, silent);
            }
        }
        Err(BlockFault) => end_run_by_word(owed, Word::BadChunk),
    }
}

// Has the run's last request executed, where the run takes one more, and answers the run.
fn end_run_by<D: Desk, C: Clock>(
    desk: &mut D,
    clock: &mut C,
    owed: &mut Owed,
    request: &Request<'_>,
)
    requires ready { D.ready desk.old }
    requires room { owed.old.is_full ≡ false }
    requires spelled { CanBeSpelled (plain request.now) }
    requires piped { act_may_be_piped (plain request.now).act ≡ true }
    ensures { EndsRun D.answers (RequestStatus (plain request.now)) (stand desk.old (C.coming clock.old) owed.old.text owed.old.run)
        (stand desk.new (C.coming clock.new) owed.new.text owed.new.run) }
{
    take_request(desk, clock, owed, request);
    owed.end_run();
}

// Keeps a word of the session itself as the status of a unit of the run, where the run takes one more.
fn take_word(owed: &mut Owed, word: Word)
    ensures takes { TakesOne (WordStatus word) owed.old.run owed.new.run [] }
    ensures text { owed.new.text ≡ owed.old.text }
    ensures room { owed.new.is_full ≡ owed.old.is_full }
{
    if owed.takes_one() {
        owed.put_status(PipeStatus::Word(word));
    }
}

// Keeps a word of the session itself as the status of the run's last unit, and answers the run.
fn end_run_by_word(owed: &mut Owed, word: Word)
    requires room { owed.old.is_full ≡ false }
    ensures { (kept : Kept) × TakesOne (WordStatus word) owed.old.run kept [] × (owed.new.text ≡ owed.old.text ++ answer_of kept) × (owed.new.run ≡ no_run) }
{
    take_word(owed, word);
    owed.end_run();
}

// Has a request executed, and owes its reply, where its line does not ask for silence.
fn answer_alone<D: Desk, C: Clock>(
    desk: &mut D,
    clock: &mut C,
    owed: &mut Owed,
    request: &Request<'_>,
    silent: bool,
)
    requires ready { D.ready desk.old }
    requires room { HasRoom owed.old }
    requires spelled { CanBeSpelled (plain request.now) }
    ensures { (reply : Reply) × ExecutesOne D.answers desk.old (C.coming clock.old) (plain request.now) reply desk.new (C.coming clock.new)
        × (owed.new.text ≡ owed.old.text ++ (if silent then [] else reply_text reply)) × (owed.new.run ≡ owed.old.run) }
{
    let reply = answer(desk, clock, request);
    if silent {
        return;
    }
    // (A short reply stays where it is. A long one is moved.)
    if !owed.put_waiting(&reply) {
        owed.put_long(reply);
    }
}

// Handles a head with its block, where no run is open and it is no piped command.
fn execute_alone<'a, D: Desk, C: Clock>(
    desk: &mut D,
    clock: &mut C,
    owed: &mut Owed,
    head: CollHead<'a>,
    block: &'a [u8],
)
    requires ready { D.ready desk.old }
    requires room { owed.old.is_full ≡ false }
    requires spelled { (line : List ℕ) × IsCollHead line head }
    requires block { Meets (coll_need_of head) block.now }
    requires goes_on { coll_is_quit head ≡ false }
    ensures told { IsToldAlone D.answers (TellsHead head.entry block.now)
        (stand desk.old (C.coming clock.old) owed.old.text owed.old.run) (stand desk.new (C.coming clock.new) owed.new.text owed.new.run) }
    ensures run { owed.new.run ≡ owed.old.run }
{
    let silent = head.is_silent();
    match join(head, block) {
        Ok(request) => answer_alone(desk, clock, owed, &request, silent),
        Err(BlockFault) => {
            if !silent {
                owed.put_word(Word::BadChunk);
            }
        }
    }
}

// Handles a key-value command with its block, where no run is open. (Most requests are such ones, and a head of this kind
// alone is passed on with fewer copies.)
#[inline(always)]
fn execute_key_value_alone<'a, D: Desk, C: Clock>(
    desk: &mut D,
    clock: &mut C,
    owed: &mut Owed,
    head: Head<'a>,
    block: &'a [u8],
)
    requires ready { D.ready desk.old }
    requires room { owed.old.is_full ≡ false }
    requires spelled { (line : List ℕ) × IsCollHead line (coll_head.KeyValue head) }
    requires block { Meets (coll_need_of (coll_head.KeyValue head)) block.now }
    requires goes_on { coll_is_quit (coll_head.KeyValue head) ≡ false }
    ensures told { IsToldAlone D.answers (TellsHead (coll_head.KeyValue head.entry) block.now)
        (stand desk.old (C.coming clock.old) owed.old.text owed.old.run) (stand desk.new (C.coming clock.new) owed.new.text owed.new.run) }
    ensures run { owed.new.run ≡ owed.old.run }
{
    let silent = head.is_silent();
    match head.with_block(block) {
        Ok(request) => answer_alone(desk, clock, owed, &request, silent),
        Err(BlockFault) => {
            if !silent {
                owed.put_word(Word::BadChunk);
            }
        }
    }
}

// Handles a head where a run is open, or where it is a command on a collection: it may be a piped command.
#[inline(never)]
fn execute_any<'a, D: Desk, C: Clock>(
    desk: &mut D,
    clock: &mut C,
    owed: &mut Owed,
    head: CollHead<'a>,
    block: &'a [u8],
)
    requires ready { D.ready desk.old }
    requires room { owed.old.is_full ≡ false }
    requires spelled { (line : List ℕ) × IsCollHead line head }
    requires block { Meets (coll_need_of head) block.now }
    requires goes_on { coll_is_quit head ≡ false }
    ensures { IsTold D.answers (head_facts head.entry block.now)
        (stand desk.old (C.coming clock.old) owed.old.text owed.old.run) (stand desk.new (C.coming clock.new) owed.new.text owed.new.run) }
{
    if is_piped(&head) {
        execute_piped(desk, clock, owed, head, block);
    } else if owed.is_in_run() {
        execute_behind_run(desk, clock, owed, head, block);
    } else {
        execute_alone(desk, clock, owed, head, block);
    }
}

// Has the request of a head and its block executed at the clock's second, and answers, or keeps its status where it stands
// in a run of piped commands. A block that is not the keys or fields that its line names is answered by the session.
#[inline(always)]
fn execute<'a, D: Desk, C: Clock>(
    desk: &mut D,
    clock: &mut C,
    owed: &mut Owed,
    head: CollHead<'a>,
    block: &'a [u8],
)
    requires ready { D.ready desk.old }
    requires room { owed.old.is_full ≡ false }
    requires spelled { (line : List ℕ) × IsCollHead line head }
    requires block { Meets (coll_need_of head) block.now }
    requires goes_on { coll_is_quit head ≡ false }
    ensures { IsTold D.answers (head_facts head.entry block.now)
        (stand desk.old (C.coming clock.old) owed.old.text owed.old.run) (stand desk.new (C.coming clock.new) owed.new.text owed.new.run) }
{
    if owed.is_in_run() {
        return execute_any(desk, clock, owed, head, block);
    }
    match head {
        CollHead::KeyValue(head) => execute_key_value_alone(desk, clock, owed, head, block),
        head => execute_any(desk, clock, owed, head, block),
    }
}

// Answers a unit with a word of the session itself: it may be marked, and its line may ask for silence.
fn answer_by_word<D: Desk>(owed: &mut Owed, marked: bool, silent: bool, word: Word)
    requires room { owed.old.is_full ≡ false }
    ensures { (desk : D) (coming : Option (List ℕ)) → IsTold D.answers (word_facts marked silent word)
        (stand desk coming owed.old.text owed.old.run) (stand desk coming owed.new.text owed.new.run) }
{
    if marked {
        take_word(owed, word);
    } else if owed.is_in_run() {
        end_run_by_word(owed, word);
    } else if !silent {
        owed.put_word(word);
    }
}

// Answers a unit of this line with a word of the session itself.
fn answer_itself<D: Desk>(owed: &mut Owed, line: &[u8], word: Word)
    requires room { owed.old.is_full ≡ false }
    ensures { (desk : D) (coming : Option (List ℕ)) → IsTold D.answers (word_facts (line_is_marked line.now) (coll_line_is_silent line.now) word)
        (stand desk coming owed.old.text owed.old.run) (stand desk coming owed.new.text owed.new.run) }
{
    match read_head(line) {
        Ok(head) => answer_by_word::<D>(owed, is_piped(&head), head.is_silent(), word),
        Err(_) => answer_by_word::<D>(owed, has_piped_form(line), false, word),
    }
}

// Handles a line with its block, which is empty where the line asks for none.
fn handle_line<D: Desk, C: Clock>(
    desk: &mut D,
    clock: &mut C,
    owed: &mut Owed,
    line: &[u8],
    block: &[u8],
) -> Phase
    requires ready { D.ready desk.old }
    requires room { owed.old.is_full ≡ false }
    requires block { HasItsBlock line.now block.now }
    ensures { HandlesLine D.answers line.now block.now
        (stand desk.old (C.coming clock.old) owed.old.text owed.old.run) (stand desk.new (C.coming clock.new) owed.new.text owed.new.run) result }
{
    match read_head(line) {
        Ok(head) => {
            if head.is_quit() {
                owed.break_run();
                return Phase::Quit;
            }
            execute(desk, clock, owed, head, block);
        }
        Err(LineFault::Unknown) => {
            answer_by_word::<D>(owed, has_piped_form(line), false, Word::Unknown);
        }
        Err(LineFault::BadFormat) => {
            answer_by_word::<D>(owed, has_piped_form(line), false, Word::BadFormat);
        }
    }
    Phase::Going
}

// Handles a unit that is whole.
fn handle_unit<D: Desk, C: Clock>(
    desk: &mut D,
    clock: &mut C,
    owed: &mut Owed,
    unit: &Unit<'_>,
) -> Phase
    requires ready { D.ready desk.old }
    requires room { owed.old.is_full ≡ false }
    requires unit { IfSome (whole_of unit.now) (λ whole. (span : List ℕ) × IsSpan coll_line_needs span whole) }
    ensures { IfSome (whole_of unit.now) (λ whole. HandlesUnit D.answers whole
        (stand desk.old (C.coming clock.old) owed.old.text owed.old.run) (stand desk.new (C.coming clock.new) owed.new.text owed.new.run) result) }
{
    match unit {
        Unit::Line(line) => handle_line(desk, clock, owed, line, b""),
        Unit::LineWithBlock { line, block } => handle_line(desk, clock, owed, line, block),
        Unit::BadChunk { line } => {
            answer_itself::<D>(owed, line, Word::BadChunk);
            Phase::Going
        }
        Unit::TooLarge { line } => {
            answer_itself::<D>(owed, line, Word::TooLarge);
            Phase::Going
        }
        Unit::BlockNoMemory { line } => {
            answer_itself::<D>(owed, line, Word::NoMemory);
            Phase::Going
        }
        Unit::LineTooLong => {
            owed.break_run();
            owed.put_word(Word::LineTooLong);
            Phase::LineTooLong
        }
        Unit::Wait => Phase::Going,
    }
}

// Handles the unit at the front of a piece where it lies there whole: a line that spells a request, with its block. Tells
// how many bytes it has. `None` comes where the reader has to be fed; then nothing was done.
fn take_front<D: Desk, C: Clock>(
    desk: &mut D,
    clock: &mut C,
    owed: &mut Owed,
    piece: &[u8],
) -> Option<usize>
    requires ready { D.ready desk.old }
    requires room { owed.old.is_full ≡ false }
    ensures front { TakesFront D.answers piece.now
        (stand desk.old (C.coming clock.old) owed.old.text owed.old.run) (stand desk.new (C.coming clock.new) owed.new.text owed.new.run) result }
    ensures untouched { result ≡ None → owed.new ≡ owed.old }
{
    fronts_are_units();
    let (line, count) = front_line(piece)?;
    let Ok(head) = read_head(line) else {
        return None;
    };
    if head.is_quit() {
        return None;
    }
    match head.need() {
        Need::Nothing => {
            execute(desk, clock, owed, head, b"");
            Some(count)
        }
        Need::Block { len, limit } => {
            if len > limit {
                return None;
            }
            let (block, end) = front_block(piece, count, len)?;
            execute(desk, clock, owed, head, block);
            Some(end)
        }
    }
}

// Feeds the reader from the front of the piece until a unit is whole, and handles that unit. Tells how many bytes were
// taken, and the phase behind the unit; no phase where none got whole.
fn feed_unit<D: Desk, C: Clock>(
    frames: &mut Frames<AllHeads>,
    desk: &mut D,
    clock: &mut C,
    owed: &mut Owed,
    piece: &[u8],
) -> (usize, Option<Phase>)
    requires ready { D.ready desk.old }
    requires room { owed.old.is_full ≡ false }
    requires some { 0 < length piece.now }
    requires at_start { IsBetweenUnits frames.old }
    ensures some { 0 < result.0 }
    ensures within { result.0 ≤ length piece.now }
    ensures at_end { IsReadingBehind result.1 frames.new }
    ensures takes { TakesNext D.answers (stand desk.old (C.coming clock.old) owed.old.text owed.old.run) (stand desk.new (C.coming clock.new) owed.new.text owed.new.run)
        frames.old frames.new piece.now result.0 result.1 }
{
    let count = frames.feed(piece);
    let phase = match frames.unit() {
        Unit::Wait => return (count, None),
        unit => handle_unit(desk, clock, owed, &unit),
    };
    if let Phase::Going = phase {
        frames.done();
    }
    (count, Some(phase))
}

/// Takes bytes from the front of the piece until a unit is whole, and handles that unit: where it lies whole in the piece
/// and nothing is held it is read there. Tells how many bytes were taken, and the phase behind the unit; no phase where
/// none got whole by all of the piece.
pub fn take_unit<D: Desk, C: Clock>(
    frames: &mut Frames<AllHeads>,
    desk: &mut D,
    clock: &mut C,
    owed: &mut Owed,
    piece: &[u8],
) -> (usize, Option<Phase>)
    requires ready { D.ready desk.old }
    requires room { owed.old.is_full ≡ false }
    requires some { 0 < length piece.now }
    requires at_start { IsBetweenUnits frames.old }
    ensures some { 0 < result.0 }
    ensures within { result.0 ≤ length piece.now }
    ensures at_end { IsReadingBehind result.1 frames.new }
    ensures takes { TakesNext D.answers (stand desk.old (C.coming clock.old) owed.old.text owed.old.run) (stand desk.new (C.coming clock.new) owed.new.text owed.new.run)
        frames.old frames.new piece.now result.0 result.1 }
{
    if frames.held() > 0 {
        return feed_unit(frames, desk, clock, owed, piece);
    }
    match take_front(desk, clock, owed, piece) {
        Some(count) => (count, Some(Phase::Going)),
        None => feed_unit(frames, desk, clock, owed, piece),
    }
}

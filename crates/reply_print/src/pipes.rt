//! The answers to runs of piped commands.
ghost use Rattle.std.specs.Prelude.{◌≡◌, ◌≤◌, [], ◌++◌, length, OnOk};
ghost use Rattle.std.specs.List.{flat_map};
ghost use Rattle.arc_core.specs.Outside.{incoming, outgoing, linked};
ghost use Rattle.reply_print.specs.PipeText.{status_text, pipe_text};
ghost use Rattle.reply_print.specs.Reaching.{PutsOut};
ghost use Rattle.reply_print.specs.Writing.{Writes};

use crate::Wrote;
use crate::gatherer::Gatherer;
use crate::lines::{fault_line, line_of, number_line, run_line_of};
use crate::sending::Unsent;
use arc_core::{Link, PipeFault, PipeStatus};

/// Sends the answer to a run of piped commands from the offset `from` on, which is at most the answer's length:
/// `RESPONSE <n>`, the lines of its n statuses, and `END`, or `PIPE_ERROR` and why the run was not executed to its end.
/// There are at most 500 statuses. Takes no memory.
///
/// The text was sent whole, from there on, where `Done` is answered. Else it was sent up to the offset that is
/// answered: `Failed`, `NoMemory` and `Again` come only where the link has counted that.
///
/// The lines go out together: a text of at most 1,024 bytes is given to the link as one piece.
pub fn write_pipe<L: Link>(
    statuses: &[PipeStatus],
    fault: PipeFault,
    from: u64,
    link: &mut L,
) -> Wrote
    requires few { length statuses.now ≤ 500 }
    requires within { from ≤ length (pipe_text statuses.now fault) }
    ensures writes { Writes (outgoing (L.sent link.old) (L.write_faults link.old) (L.refusals link.old))
        (outgoing (L.sent link.new) (L.write_faults link.new) (L.refusals link.new)) (L.agains link.old) (L.agains link.new) (pipe_text statuses.now fault) from result }
    // Nothing is taken from the link.
    ensures incoming { incoming (L.left link.new) (L.read_faults link.new) ≡ incoming (L.left link.old) (L.read_faults link.old) }
{
    let mut gatherer = Gatherer::new(from);
    match put_answer(&mut gatherer, statuses, fault, link) {
        Ok(()) => Wrote::Done,
        Err(unsent) => unsent.wrote(),
    }
}

// Puts out the answer, and nothing waits then.
fn put_answer<L: Link>(
    gatherer: &mut Gatherer,
    statuses: &[PipeStatus],
    fault: PipeFault,
    link: &mut L,
) -> Result<(), Unsent>
    ensures puts { PutsOut
        (linked (L.left link.old) (L.read_faults link.old) (L.sent link.old) (L.write_faults link.old)
        (L.refusals link.old) (L.agains link.old))
        (linked (L.left link.new) (L.read_faults link.new) (L.sent link.new) (L.write_faults link.new)
        (L.refusals link.new) (L.agains link.new))
        gatherer.old gatherer.new (pipe_text statuses.now fault) result }
    ensures empty { OnOk result (gatherer.new.waiting ≡ []) }
{
    put_text(gatherer, statuses, fault, link)?;
    gatherer.flush(link)
}

// Puts out the lines of the statuses and those around them.
fn put_text<L: Link>(
    gatherer: &mut Gatherer,
    statuses: &[PipeStatus],
    fault: PipeFault,
    link: &mut L,
) -> Result<(), Unsent>
    ensures { PutsOut
        (linked (L.left link.old) (L.read_faults link.old) (L.sent link.old) (L.write_faults link.old)
        (L.refusals link.old) (L.agains link.old))
        (linked (L.left link.new) (L.read_faults link.new) (L.sent link.new) (L.write_faults link.new)
        (L.refusals link.new) (L.agains link.new))
        gatherer.old gatherer.new (pipe_text statuses.now fault) result }
{
    gatherer.put(run_line_of(statuses.len()).bytes(), link)?;
    put_statuses(gatherer, statuses, link)?;
    gatherer.put(fault_line(fault), link)
}

// Puts out the lines of the statuses.
fn put_statuses<L: Link>(
    gatherer: &mut Gatherer,
    statuses: &[PipeStatus],
    link: &mut L,
) -> Result<(), Unsent>
    ensures { PutsOut
        (linked (L.left link.old) (L.read_faults link.old) (L.sent link.old) (L.write_faults link.old)
        (L.refusals link.old) (L.agains link.old))
        (linked (L.left link.new) (L.read_faults link.new) (L.sent link.new) (L.write_faults link.new)
        (L.refusals link.new) (L.agains link.new))
        gatherer.old gatherer.new (flat_map status_text statuses.now) result }
{
    for status in statuses {
        put_status(gatherer, *status, link)?;
    }
    Ok(())
}

// Puts out the line of a status.
fn put_status<L: Link>(
    gatherer: &mut Gatherer,
    status: PipeStatus,
    link: &mut L,
) -> Result<(), Unsent>
    ensures { PutsOut
        (linked (L.left link.old) (L.read_faults link.old) (L.sent link.old) (L.write_faults link.old)
        (L.refusals link.old) (L.agains link.old))
        (linked (L.left link.new) (L.read_faults link.new) (L.sent link.new) (L.write_faults link.new)
        (L.refusals link.new) (L.agains link.new))
        gatherer.old gatherer.new (status_text status) result }
{
    match status {
        PipeStatus::Word(word) => gatherer.put(line_of(word), link),
        PipeStatus::Number(number) => gatherer.put(number_line(number).bytes(), link),
    }
}

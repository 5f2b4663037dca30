//! Answers to runs of piped commands, worked by hand: from each offset, in the outbox, and over links that stop.
use crate::tests::{Stop, TestLink, check_sent_upto};
use crate::{Outbox, WAITING_BYTES, Wrote, status_fails, status_of, write_pipe};
use arc_core::{NoMemory, PipeFault, PipeStatus, Reply, Seq, Word};
use std::alloc::Global;
use std::process::Abort;
use std::test::Fail;

// The statuses of a run, why it was not executed to its end, and the answer.
const ANSWERS: [(&[PipeStatus], PipeFault, &[u8]); 6] = [
    (&[], PipeFault::Nothing, b"RESPONSE 0\r\nEND\r\n"),
    (
        &[],
        PipeFault::Overflow,
        b"RESPONSE 0\r\nPIPE_ERROR command overflow\r\n",
    ),
    (
        &[PipeStatus::Word(Word::Stored)],
        PipeFault::Nothing,
        b"RESPONSE 1\r\nSTORED\r\nEND\r\n",
    ),
    (
        &[PipeStatus::Word(Word::Stored)],
        PipeFault::BadError,
        b"RESPONSE 1\r\nSTORED\r\nPIPE_ERROR bad error\r\n",
    ),
    (
        &[
            PipeStatus::Word(Word::Stored),
            PipeStatus::Word(Word::BadFormat),
        ],
        PipeFault::BadError,
        b"RESPONSE 2\r\nSTORED\r\nCLIENT_ERROR bad command line format\r\nPIPE_ERROR bad error\r\n",
    ),
    (
        &[
            PipeStatus::Number(0),
            PipeStatus::Number(u64::MAX),
            PipeStatus::Word(Word::Exist),
        ],
        PipeFault::Nothing,
        b"RESPONSE 3\r\n0\r\n18446744073709551615\r\nEXIST\r\nEND\r\n",
    ),
];

// The place in `ANSWERS` of the one over which links stop.
const STOPPED: usize = 4;

// Sends an answer, which waits in an outbox too, from the offset on.
fn sent(
    rt: &impl Abort,
    alloc: Global,
    statuses: &[PipeStatus],
    fault: PipeFault,
    from: usize,
    link: &mut TestLink,
) -> Result<Wrote, NoMemory> {
    let mut outbox = Outbox::new(alloc)?;
    assert!(rt; outbox.bytes().is_empty() && statuses.len() <= 500);
    outbox.put_pipe(statuses, fault);
    assert!(rt; from <= outbox.bytes().len());
    Ok(write_pipe(statuses, fault, from as u64, link))
}

#[test]
fn answers_have_these_texts(rt: HostRuntime) -> Result<(), Fail> {
    let alloc = rt.alloc();
    for (statuses, fault, text) in ANSWERS {
        for from in 0..text.len() + 1 {
            for most in [1, 3, usize::MAX] {
                let mut link = TestLink::new(alloc, most, Stop::Never);
                let wrote = sent(&rt, alloc, statuses, fault, from, &mut link)?;
                assert!(rt; wrote == Wrote::Done && link.sent.as_slice() == &text[from..]);
                assert!(rt; most < usize::MAX || link.pushes <= 1);
            }
        }
    }
    Ok(())
}

#[test]
fn answers_wait_behind_all_that_waits(rt: HostRuntime) -> Result<(), Fail> {
    let alloc = rt.alloc();
    for (statuses, fault, text) in ANSWERS {
        for used in [0, 1, WAITING_BYTES - 1, WAITING_BYTES] {
            let filler = vec![in alloc; b'x'; used]?;
            let mut outbox = Outbox::new(alloc)?;
            assert!(rt; outbox.add(&filler));
            assert!(rt; outbox.bytes() == filler.as_slice() && used <= WAITING_BYTES);
            assert!(rt; statuses.len() <= 500);
            outbox.put_pipe(statuses, fault);
            assert!(rt; outbox.bytes().len() == used.saturating_add(text.len()));
            assert!(rt; outbox.bytes().starts_with(&filler) && outbox.bytes().ends_with(text));
            // Then nothing more has room where too much waits.
            assert!(rt; outbox.add(b"x") == (used == 0 || used == 1));
        }
    }
    Ok(())
}

#[test]
fn tells_up_to_where_an_answer_was_sent(rt: HostRuntime) -> Result<(), Fail> {
    let alloc = rt.alloc();
    let (statuses, fault, text) = ANSWERS[STOPPED];
    for from in [0, 5, 20] {
        for (most, pushes) in [(1, text.len() - from), (3, 10), (usize::MAX, 1)] {
            for place in 0..pushes as u64 {
                for stop in [Stop::Fails(place), Stop::Refuses(place), Stop::Waits(place)] {
                    let mut link = TestLink::new(alloc, most, stop);
                    let wrote = sent(&rt, alloc, statuses, fault, from, &mut link)?;
                    check_sent_upto(&rt, wrote, &link, text, from, most, stop);
                }
            }
        }
    }
    Ok(())
}

#[test]
fn goes_on_where_it_has_to_ask_again(rt: HostRuntime) -> Result<(), Fail> {
    let alloc = rt.alloc();
    for (statuses, fault, text) in ANSWERS {
        for most in [1, 7, usize::MAX] {
            let mut link = TestLink::new(alloc, most, Stop::WaitsEachSecond);
            let mut from = 0;
            for _ in 0..text.len() + 1 {
                let Wrote::Again(upto) = sent(&rt, alloc, statuses, fault, from, &mut link)? else {
                    break;
                };
                assert!(rt; upto == link.sent.len() as u64);
                from = upto as usize;
            }
            assert!(rt; link.sent.as_slice() == text);
        }
    }
    Ok(())
}

// The answer to 500 commands that have one status.
fn long_answer(alloc: Global, line: &[u8], end: &[u8]) -> Result<Vec<u8>, Fail> {
    let mut text = Vec::from_slice(alloc, b"RESPONSE 500\r\n")?;
    for _ in 0..500 {
        text.extend_from_slice(line)?;
    }
    text.extend_from_slice(end)?;
    Ok(text)
}

#[test]
fn answers_500_commands(rt: HostRuntime) -> Result<(), Fail> {
    let alloc = rt.alloc();
    let statuses = [PipeStatus::Word(Word::Stored); 500];
    for (fault, end) in [
        (PipeFault::Nothing, b"END\r\n".as_slice()),
        (PipeFault::Overflow, b"PIPE_ERROR command overflow\r\n"),
    ] {
        let text = long_answer(alloc, b"STORED\r\n", end)?;
        for from in 0..text.len() + 1 {
            let mut link = TestLink::new(alloc, usize::MAX, Stop::Never);
            let wrote = sent(&rt, alloc, &statuses, fault, from, &mut link)?;
            assert!(rt; wrote == Wrote::Done && link.sent.as_slice() == &text[from..]);
            // The first push has 1,022 bytes, the next two have 1,024.
            assert!(rt; 0 < from || link.pushes == 4);
        }
        let mut link = TestLink::new(alloc, 1, Stop::Never);
        let wrote = sent(&rt, alloc, &statuses, fault, 0, &mut link)?;
        assert!(rt; wrote == Wrote::Done && link.sent == text);
    }
    Ok(())
}

#[test]
fn long_answers_have_room(rt: HostRuntime) -> Result<(), Fail> {
    let alloc = rt.alloc();
    let statuses = [PipeStatus::Word(Word::NoMemory); 500];
    let mut outbox = Outbox::new(alloc)?;
    let filler = vec![in alloc; b'x'; WAITING_BYTES]?;
    assert!(rt; outbox.add(&filler));
    assert!(rt; outbox.bytes() == filler.as_slice());
    outbox.put_pipe(&statuses, PipeFault::Nothing);
    let mut link = TestLink::new(alloc, usize::MAX, Stop::Never);
    assert!(rt; write_pipe(&statuses, PipeFault::Nothing, 0, &mut link) == Wrote::Done);
    let text = long_answer(
        alloc,
        b"SERVER_ERROR no memory from the system\r\n",
        b"END\r\n",
    )?;
    assert!(rt; link.sent == text && outbox.bytes().ends_with(&text));
    Ok(())
}

#[test]
fn words_and_numbers_are_statuses(rt: HostRuntime) {
    for (word, fails) in [
        (Word::Stored, false),
        (Word::Overflowed, false),
        (Word::Unknown, true),
        (Word::BadChunk, true),
        (Word::OutOfMemory, true),
    ] {
        let status = status_of(&Reply::Word(word));
        assert!(rt; status == Some(PipeStatus::Word(word)));
        assert!(rt; status_fails(PipeStatus::Word(word)) == fails);
    }
    let number = PipeStatus::Number(7);
    assert!(rt; status_of(&Reply::Number(7)) == Some(number) && !status_fails(number));
    assert!(rt; status_of(&Reply::Values(Seq::new(rt.alloc()))) == None);
}

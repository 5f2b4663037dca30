//! What the program's words ask for, row by row. The rows are worked by hand.

use crate::{BadWords, Job, ServeJob, read_words};
use std::alloc::{AllocError, Global};
use std::test::Fail;

// The words of a row, between single spaces.
fn words_of(alloc: Global, row: &str) -> Result<Vec<String>, AllocError> {
    let mut words = Vec::new(alloc);
    for word in row.split_whitespace() {
        words.push(word.to_string(alloc)?)?;
    }
    Ok(words)
}

// A server on port 1 with one worker and a cache of 64 MiB, all of which may be sticky.
const SERVER: ServeJob = ServeJob {
    port: 1,
    workers: 1,
    limit: 64,
    share: 100,
    sessions: None,
    events: false,
};

#[test]
fn words_ask_for_a_job(rt: HostRuntime) -> Result<(), Fail> {
    for (row, job) in [
        (
            "session",
            Job::Session {
                limit: 64,
                share: 100,
            },
        ),
        (
            "session --limit 1",
            Job::Session {
                limit: 1,
                share: 100,
            },
        ),
        (
            "session --limit=4096",
            Job::Session {
                limit: 4096,
                share: 100,
            },
        ),
        (
            "session --sticky 0",
            Job::Session {
                limit: 64,
                share: 0,
            },
        ),
        (
            "session --sticky=100",
            Job::Session {
                limit: 64,
                share: 100,
            },
        ),
        (
            "session --sticky 50 --limit=1",
            Job::Session {
                limit: 1,
                share: 50,
            },
        ),
        (
            "session --limit 4096 --sticky=9",
            Job::Session {
                limit: 4096,
                share: 9,
            },
        ),
        (
            "many --workers 1",
            Job::Many {
                workers: 1,
                limit: 64,
                share: 100,
            },
        ),
        (
            "many --sticky 1 --workers=4096 --limit 2",
            Job::Many {
                workers: 4096,
                limit: 2,
                share: 1,
            },
        ),
        ("serve --port 1 --workers 1", Job::Serve(SERVER)),
        (
            "serve --workers=1 --events --port=1",
            Job::Serve(ServeJob {
                events: true,
                ..SERVER
            }),
        ),
        (
            "serve --sessions 4294967295 --workers 4096 --sticky=0 --port 65535 --limit=1",
            Job::Serve(ServeJob {
                port: 65535,
                workers: 4096,
                limit: 1,
                share: 0,
                sessions: Some(4294967295),
                events: false,
            }),
        ),
    ] {
        let words = words_of(rt.alloc(), row)?;
        assert_eq!(rt; read_words(&words), Ok(job), "{row}");
    }
    Ok(())
}

#[test]
fn the_first_bad_word_is_named(rt: HostRuntime) -> Result<(), Fail> {
    for (row, place) in [
        ("", 0),
        ("sessions", 0),
        ("Session", 0),
        ("--limit 1 session", 0),
        ("session x", 1),
        ("session =1", 1),
        ("session --limit 0", 2),
        ("session --limit 4097", 2),
        ("session --limit 064", 2),
        ("session --limit +1", 2),
        ("session --limit 1x", 2),
        ("session --limit", 2),
        ("session --limit --limit=1", 2),
        ("session --limit=", 1),
        ("session --limit=0", 1),
        ("session --limit=064", 1),
        ("session --limit==1", 1),
        ("session --LIMIT 1", 1),
        ("session --limits 1", 1),
        ("session --limit 1 --limit 2", 3),
        ("session --limit=1 --limit=1", 2),
        ("session --limit 1 x", 3),
        ("session --sticky 101", 2),
        ("session --sticky 00", 2),
        ("session --sticky=-1", 1),
        ("session --sticky --limit 1", 2),
        ("session --sticky 1 --limit 1 --sticky", 5),
        ("session --workers 1", 1),
        ("session --port=1", 1),
        ("session --events", 1),
        ("many", 1),
        ("many --limit 1", 3),
        ("many --workers", 2),
        ("many --workers 0", 2),
        ("many --workers 4097", 2),
        ("many --workers 1 --sessions 1", 3),
        ("many --workers 1 --events", 3),
        ("serve", 1),
        ("serve --port 1", 3),
        ("serve --workers 1", 3),
        ("serve --port 0 --workers 1", 2),
        ("serve --port 65536 --workers 1", 2),
        ("serve --port 080 --workers 1", 2),
        ("serve --port=1 --workers=1 --port 2", 3),
        ("serve --port=1 --workers=1 --sessions 0", 4),
        ("serve --port=1 --workers=1 --sessions=4294967296", 3),
        ("serve --port=1 --events --workers=1 --events", 4),
        ("serve --port=1 --workers=1 --events=1", 3),
        ("serve --port=1 --workers=1 --events=", 3),
        ("serve --port=1 --workers=1 --event", 3),
    ] {
        let words = words_of(rt.alloc(), row)?;
        assert_eq!(rt; read_words(&words), Err(BadWords(place)), "{row}");
    }
    Ok(())
}

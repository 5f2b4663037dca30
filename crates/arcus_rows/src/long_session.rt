//! One session with every command, and with what goes wrong when people type.

use crate::harness::{BYTE_BY_BYTE, DEFAULT, converse};
use std::test::Fail;

// What is typed, and what comes back.
const CONVERSATION: [(&str, &str); 35] = [
    ("version|", "VERSION arcus-profile-2|"),
    ("set greeting 7 0 5|hello|", "STORED|"),
    ("get greeting|", "VALUE greeting 7 5|hello|END|"),
    // Commands are written in lower case.
    ("GET greeting|", "ERROR unknown command|"),
    // The exptime is missing, so that no block is taken: what was meant as one is read as a line.
    ("set greeting 7 5|", "CLIENT_ERROR bad command line format|"),
    ("howdy|", "ERROR unknown command|"),
    ("add greeting 0 0 2|hi|", "NOT_STORED|"),
    // A value that is longer than its line says: its line end is left over, as an empty line.
    (
        "replace greeting 7 0 4|howdy|",
        "CLIENT_ERROR bad data chunk|ERROR unknown command|",
    ),
    ("append greeting 0 0 5|, you|", "STORED|"),
    ("prepend greeting 0 0 3|oh-|", "STORED|"),
    ("gets greeting|", "VALUE greeting 7 13 3|oh-hello, you|END|"),
    ("cas greeting 7 0 3 2|bye|", "EXISTS|"),
    ("cas greeting 7 0 3 3|bye|", "STORED|"),
    ("cas farewell 7 0 3 3|bye|", "NOT_FOUND|"),
    ("set visits 0 0 1|9|", "STORED|"),
    ("incr visits 3|", "12|"),
    ("decr visits 20|", "0|"),
    (
        "incr greeting 1|",
        "CLIENT_ERROR cannot increment or decrement non-numeric value|",
    ),
    ("incr lap 1|", "NOT_FOUND|"),
    ("incr lap 1 0 0 10|", "10|"),
    ("incr lap one|", "CLIENT_ERROR bad command line format|"),
    ("set quiet 1 0 2 noreply|ok|", ""),
    (
        "mget 18 3|greeting lap quiet|",
        "VALUE greeting 7 3|bye|VALUE lap 0 2|10|VALUE quiet 1 2|ok|END|",
    ),
    // Keys are separated by spaces.
    ("mget 12 2|greeting,lap|", "CLIENT_ERROR bad data chunk|"),
    ("touch greeting -1|", "TOUCHED|"),
    ("touch nothing 0|", "NOT_FOUND|"),
    ("delete visits|", "DELETED|"),
    ("delete visits|", "NOT_FOUND|"),
    (
        "gets quiet lap|",
        "VALUE quiet 1 2 9|ok|VALUE lap 0 2 8|10|END|",
    ),
    ("flush_all now|", "CLIENT_ERROR bad command line format|"),
    ("flush_all|", "OK|"),
    ("get greeting lap quiet|", "END|"),
    ("quit please|", "CLIENT_ERROR bad command line format|"),
    ("quit|", ""),
    // Nothing is read behind it.
    ("get greeting|", ""),
];

#[test]
fn every_command_and_what_goes_wrong(rt: HostRuntime) -> Result<(), Fail> {
    for setting in [DEFAULT, BYTE_BY_BYTE] {
        converse(&rt, rt.alloc(), setting, &CONVERSATION)?;
    }
    Ok(())
}

//! What goes out in one push: the texts of all units that one pull brings, 16,384 bytes at most, and a longer piece by
//! itself.

use crate::harness::{DEFAULT, Setting, add_text, bytes_of, expect, expect_bytes, run_on};
use arcus_tool::Status;
use std::test::Fail;

// No second push is made where one sends all texts.
#[test]
fn texts_go_out_together(rt: HostRuntime) -> Result<(), Fail> {
    let one_push = Setting {
        failing_pushes: &[1],
        ..DEFAULT
    };
    let input = "set a 5 0 3|abc|get a|bad|version|";
    let output = "STORED|VALUE a 5 3|abc|END|ERROR unknown command|VERSION arcus-profile-2|";
    expect(&rt, rt.alloc(), one_push, input, output, Status::Done)?;
    // Also what is answered before the session ends.
    let input = "set a 5 0 3|abc|get a|quit|";
    let output = "STORED|VALUE a 5 3|abc|END|";
    expect(&rt, rt.alloc(), one_push, input, output, Status::Done)?;
    // The line's text comes behind a later pull.
    let input = "version|{65536x}";
    let front = "VERSION arcus-profile-2|";
    expect(&rt, rt.alloc(), one_push, input, front, Status::WriteFault)?;
    Ok(())
}

// A push may take a part, and the next one fail.
#[test]
fn a_front_was_sent(rt: HostRuntime) -> Result<(), Fail> {
    let input = "set a 5 0 3|abc|get a|";
    let few = Setting {
        takes: 1,
        ..DEFAULT
    };
    expect(
        &rt,
        rt.alloc(),
        few,
        input,
        "STORED|VALUE a 5 3|abc|END|",
        Status::Done,
    )?;
    let ten = Setting {
        takes: 10,
        failing_pushes: &[1],
        ..DEFAULT
    };
    expect(&rt, rt.alloc(), ten, input, "STORED|VA", Status::WriteFault)?;
    Ok(())
}

// 655 texts of 25 bytes have room, and the next one has none. (A session pulls 2,048 bytes first, and more at once then.)
#[test]
fn texts_wait_up_to_16384_bytes(rt: HostRuntime) -> Result<(), Fail> {
    let mut input = bytes_of(rt.alloc(), "set a 0 0 2022 noreply|{2022x}|")?;
    let mut output = Vec::new(rt.alloc());
    for number in 0..1_000 {
        add_text(&mut input, "version|")?;
        if number < 655 {
            add_text(&mut output, "VERSION arcus-profile-2|")?;
        }
    }
    let one_push = Setting {
        failing_pushes: &[1],
        ..DEFAULT
    };
    let played = run_on(&rt, rt.alloc(), one_push, input)?;
    expect_bytes(
        &rt,
        "1,000 times version",
        played.world.sink.bytes(),
        &output,
    );
    assert_eq!(rt; played.status, Status::WriteFault);
    Ok(())
}

// A value that is longer than all that may wait goes out by itself, behind what waits.
#[test]
fn long_values_go_out_alone(rt: HostRuntime) -> Result<(), Fail> {
    let input = "set a 0 0 16385|{16385x}|get a|version|";
    // The first sends what waited, the second the value's line, the third the value, and the fourth what is behind it.
    let fourth_push = Setting {
        failing_pushes: &[3],
        ..DEFAULT
    };
    let front = "STORED|VALUE a 0 16385|{16385x}";
    expect(
        &rt,
        rt.alloc(),
        fourth_push,
        input,
        front,
        Status::WriteFault,
    )?;
    let whole = "STORED|VALUE a 0 16385|{16385x}|END|VERSION arcus-profile-2|";
    expect(&rt, rt.alloc(), DEFAULT, input, whole, Status::Done)?;
    let seven = Setting {
        takes: 7,
        ..DEFAULT
    };
    let played = run_on(&rt, rt.alloc(), seven, bytes_of(rt.alloc(), input)?)?;
    expect_bytes(
        &rt,
        input,
        played.world.sink.bytes(),
        &bytes_of(rt.alloc(), whole)?,
    );
    Ok(())
}

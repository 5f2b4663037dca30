//! Rows whose input is cut at every byte, or whose link does one call otherwise: what is answered stays the same.

use crate::harness::bytes_of;
use crate::pipes::RUNS;
use crate::rows::{ROWS, ROWS_OF_COLLECTIONS};
use crate::turning::{Manner, STEADY, expect_turns};
use arc_core::End;
use std::alloc::Global;
use std::process::Abort;
use std::test::Fail;

// What is sent, what is answered, and how the session ends.
type Row = (&'static str, &'static str, End);

// As many places are cut, and as many calls made again, as the longest row without a large block has.
const MOST: usize = 400;

// Two pieces, whatever their lengths, where the link is to be asked again between them.
fn expect_cut(rt: &impl Abort, alloc: Global, row: Row) -> Result<(), Fail> {
    let length = bytes_of(alloc, row.0)?.len();
    for front in 1..length.min(MOST) {
        let manner = Manner {
            lengths: &[front],
            again_pulls: &[1],
            ..STEADY
        };
        let turned = expect_turns(rt, alloc, manner, row)?;
        assert_eq!(rt; turned.agains, 1);
    }
    Ok(())
}

const SEVENS: [usize; 60] = [7; 60];

// Pieces of 7 bytes, where these pulls and pushes are to be made again, and these pushes take one byte.
fn expect_with<'a>(
    rt: &impl Abort,
    alloc: Global,
    row: Row,
    again_pulls: &'a [u64],
    again_pushes: &'a [u64],
    partial_pushes: &'a [u64],
) -> Result<(), Fail> {
    let manner = Manner {
        lengths: &SEVENS,
        again_pulls,
        again_pushes,
        partial_pushes,
        ..STEADY
    };
    expect_turns(rt, alloc, manner, row)?;
    Ok(())
}

// Each of the first 60 pulls, and each of the pushes, does so in turn.
fn expect_made_again(rt: &impl Abort, alloc: Global, row: Row) -> Result<(), Fail> {
    for call in 0..60 {
        let this = [call];
        expect_with(rt, alloc, row, &this, &[], &[])?;
        expect_with(rt, alloc, row, &[], &this, &[])?;
        expect_with(rt, alloc, row, &[], &[], &this)?;
    }
    Ok(())
}

#[test]
fn rows_are_cut_anywhere(rt: HostRuntime) -> Result<(), Fail> {
    for (input, output) in ROWS {
        expect_cut(&rt, rt.alloc(), (input, output, End::Ended))?;
    }
    for (input, output) in ROWS_OF_COLLECTIONS {
        expect_cut(&rt, rt.alloc(), (input, output, End::Ended))?;
    }
    for row in RUNS {
        expect_cut(&rt, rt.alloc(), row)?;
    }
    Ok(())
}

#[test]
fn each_call_of_a_row_is_made_again(rt: HostRuntime) -> Result<(), Fail> {
    for (input, output) in ROWS {
        expect_made_again(&rt, rt.alloc(), (input, output, End::Ended))?;
    }
    for (input, output) in ROWS_OF_COLLECTIONS {
        expect_made_again(&rt, rt.alloc(), (input, output, End::Ended))?;
    }
    for row in RUNS {
        expect_made_again(&rt, rt.alloc(), row)?;
    }
    Ok(())
}

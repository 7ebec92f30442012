ghost use Rattle.jl_frames.specs.Index.{IsIndex};

use crate::{Tape, read_run};
use jl_base::{Fault, Kind, Place, Run, Space};
use jl_frames::{Frames, index};
use jl_rows::Row;
use std::alloc::Global;
use std::process::Abort;
use std::test::Fail;

// Four frames: one row; an entry and a row; none; a row, and one that says nothing.
const FILE: &[u8] = b"\
    \x04\x0A\x02\x2A\0\
    \x0B\x0A\x05\x4A\x03\x12\x01a\x0A\x02\x2A\0\
    \0\
    \x06\x0A\x02\x2A\0\x0A\0";

// Reads a run of so many frames, the first of this number.
fn reads(
    rt: &impl Abort,
    tape: &mut Tape,
    space: &Space,
    frames: &Frames,
    first_frame: u64,
    count: u64,
) -> Result<Option<Fault>, Fail>
    requires { IsIndex space.now frames.now }
{
    let first = frames.first();
    assert!(rt; first <= first_frame);
    assert!(rt; count <= frames.count());
    assert!(rt; first_frame - first <= frames.count() - count);
    let bytes = space.bytes();
    let run = Run {
        lo: 0,
        hi: 0,
        first_frame,
        frames: count,
    };
    Ok(read_run(tape, bytes, frames, run)?)
}

// The tape has these places.
fn has(rt: &impl Abort, tape: &Tape, places: &[(u64, u32)]) {
    assert_eq!(rt; tape.len(), places.len());
    for i in 0..places.len() {
        let place = tape.at(i).place;
        assert_eq!(rt; (place.frame, place.row), places[i]);
    }
}

fn fault() -> Option<Fault> {
    let place = Place { frame: 4, row: 2 };
    let kind = Kind::EmptyRow;
    Some(Fault { place, kind })
}

#[test]
fn three_frames_with_a_fault_in_the_last(rt: HostRuntime) -> Result<(), Fail> {
    let alloc = rt.alloc();
    let space = Space::from_bytes(alloc, FILE)?;
    let frames = index(alloc, &space)?;
    let mut tape = Tape::new(alloc);
    let found = reads(&rt, &mut tape, &space, &frames, 2, 3)?;
    assert_eq!(rt; found, fault());
    has(&rt, &tape, &[(2, 1), (2, 2), (4, 1)]);
    assert!(rt; tape.len() > 0);
    assert!(rt; matches!(tape.at(0).row, Row::Entry { .. }));
    Ok(())
}

#[test]
fn a_tape_used_again(rt: HostRuntime) -> Result<(), Fail> {
    let alloc = rt.alloc();
    let space = Space::from_bytes(alloc, FILE)?;
    let frames = index(alloc, &space)?;
    let mut tape = Tape::new(alloc);
    let found = reads(&rt, &mut tape, &space, &frames, 1, 4)?;
    assert_eq!(rt; found, fault());
    has(&rt, &tape, &[(1, 1), (2, 1), (2, 2), (4, 1)]);
    let found = reads(&rt, &mut tape, &space, &frames, 2, 2)?;
    assert_eq!(rt; found, None);
    has(&rt, &tape, &[(2, 1), (2, 2)]);
    assert!(rt; tape.len() > 1);
    assert!(rt; matches!(tape.at(1).row, Row::GraphEnd));
    let found = reads(&rt, &mut tape, &space, &frames, 3, 1)?;
    assert_eq!(rt; found, None);
    has(&rt, &tape, &[]);
    Ok(())
}

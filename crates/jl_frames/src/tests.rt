mod pieces;
mod windows;

use crate::{Frames, Plan, index};
use jl_base::{Fault, Kind, Place, Run, Space, Span};
use std::alloc::{AllocError, Global};
use std::process::Abort;
use std::test::Fail;

// A file of so many empty frames, and then these bytes.
fn filled(alloc: Global, empty: usize, last: &[u8]) -> Result<Space, AllocError> {
    let mut bytes = Vec::new(alloc);
    bytes.resize(empty, 0)?;
    bytes.extend_from_slice(last)?;
    Space::from_bytes(alloc, &bytes)
}

fn indexed(rt: &impl Abort, alloc: Global, space: &Space) -> Result<Frames, AllocError> {
    assert!(rt; space.bytes().len() < 100);
    index(alloc, space)
}

#[test]
fn frames_of_a_file(rt: HostRuntime) -> Result<(), Fail> {
    let alloc = rt.alloc();
    let space = filled(alloc, 2, b"\x03abc\x81\0d\x02e")?;
    let frames = indexed(&rt, alloc, &space)?;
    assert_eq!(rt; frames.count(), 4);
    assert_eq!(rt; frames.frame(0), Span { at: 1, len: 0 });
    assert_eq!(rt; frames.frame(2), Span { at: 3, len: 3 });
    assert_eq!(rt; frames.frame(3), Span { at: 8, len: 1 });
    let place = Place { frame: 5, row: 0 };
    let kind = Kind::Truncated;
    assert_eq!(rt; frames.tail(), Some(Fault { place, kind }));
    Ok(())
}

#[test]
fn five_frames_by_two(rt: HostRuntime) -> Result<(), Fail> {
    let alloc = rt.alloc();
    let space = filled(alloc, 4, b"\x01a")?;
    let frames = indexed(&rt, alloc, &space)?;
    let plan = Plan::cut(alloc, &frames, 2)?;
    assert_eq!(rt; frames.tail(), None);
    assert_eq!(rt; plan.runs(), 3);
    let (second, third) = (plan.run(1), plan.run(2));
    assert_eq!(rt;
        plan.run(0),
        Run {
            lo: 0,
            hi: 2,
            first_frame: 1,
            frames: 2
        }
    );
    assert_eq!(rt;
        second,
        Run {
            lo: 2,
            hi: 4,
            first_frame: 3,
            frames: 2
        }
    );
    assert_eq!(rt;
        third,
        Run {
            lo: 4,
            hi: 6,
            first_frame: 5,
            frames: 1
        }
    );
    assert_eq!(rt; plan.waves(), 1);
    assert_eq!(rt; plan.wave(0), (0, 3));
    Ok(())
}

#[test]
fn sixty_five_frames_by_one(rt: HostRuntime) -> Result<(), Fail> {
    let alloc = rt.alloc();
    let space = filled(alloc, 65, b"")?;
    let plan = Plan::cut(alloc, &indexed(&rt, alloc, &space)?, 1)?;
    assert_eq!(rt; plan.runs(), 65);
    assert_eq!(rt; plan.waves(), 2);
    assert_eq!(rt; plan.wave(0), (0, 64));
    assert_eq!(rt; plan.wave(1), (64, 65));
    Ok(())
}

#[test]
fn no_frames(rt: HostRuntime) -> Result<(), Fail> {
    let alloc = rt.alloc();
    let space = filled(alloc, 0, b"")?;
    let frames = indexed(&rt, alloc, &space)?;
    let plan = Plan::cut(alloc, &frames, 16)?;
    assert_eq!(rt; frames.count(), 0);
    assert_eq!(rt; plan.runs(), 0);
    assert_eq!(rt; plan.waves(), 0);
    Ok(())
}

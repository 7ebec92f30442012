ghost use Rattle.std.specs.Prelude.{◌≡◌, ◌<◌, ◌≤◌, ◌^◌, None, IfOk, length};
ghost use Rattle.jl_base.specs.Limits.{most_bytes};
ghost use Rattle.jl_frames.specs.Index.{IsIndex};
ghost use Rattle.jl_rows.specs.Heads.{ArePassed};
ghost use Rattle.jl_state.specs.Lawful.{IsLawful};

use crate::{Decoding, Page, Refused, Writing};
use jl_base::{Fault, Kind, Place, Run, Space};
use jl_frames::{Frames, index};
use jl_rows::{Head, Options, head};
use jl_tape::{Tape, read_run};
use std::alloc::{AllocError, Global};
use std::process::Abort;
use std::test::Fail;

// Options, a name and a triple.
const ONE: &[u8] = b"\x23\x0A\x0C\x0A\x0A\x10\x01\x48\x08\x50\x08\x58\x08\x78\x01\
    \x0A\x05\x4A\x03\x12\x01a\x0A\x0C\x12\x0A\x0A\0\x2A\x02\x10\x01\x4A\x02\x10\x01";

// The same, and a frame whose second row names an entry that was never written.
const FAULTY: &[u8] = b"\x23\x0A\x0C\x0A\x0A\x10\x01\x48\x08\x50\x08\x58\x08\x78\x01\
    \x0A\x05\x4A\x03\x12\x01a\x0A\x0C\x12\x0A\x0A\0\x2A\x02\x10\x01\x4A\x02\x10\x01\
    \x0C\x0A\x02\x12\0\x0A\x06\x12\x04\x0A\x02\x10\x05";

// The first one, and a frame with a triple that differs in its predicate, a blank node.
const BLANK: &[u8] = b"\x23\x0A\x0C\x0A\x0A\x10\x01\x48\x08\x50\x08\x58\x08\x78\x01\
    \x0A\x05\x4A\x03\x12\x01a\x0A\x0C\x12\x0A\x0A\0\x2A\x02\x10\x01\x4A\x02\x10\x01\
    \x07\x0A\x05\x12\x03\x32\x01b";

// The lines of a frame from a tape, as a run of its own, from the state as it stands; and its fault.
fn frame_lines(
    rt: &impl Abort,
    alloc: Global,
    space: &Space,
    frames: &Frames,
    i: u64,
    decoding: &mut Decoding,
    out: &mut Vec<u8>,
) -> Result<Option<Fault>, Fail>
    requires short { length space.now ≤ most_bytes }
    requires indexed { IsIndex space.now frames.now }
    requires frame { i < length frames.now.bodies }
    requires few { i < 2 ^ 63 }
    requires lawful { IsLawful space.now decoding.old.state }
    ensures { IfOk result (λ found. found ≡ None → IsLawful space.now decoding.new.state) }
{
    let run = Run {
        lo: 0,
        hi: 0,
        first_frame: frames.first() + i,
        frames: 1,
    };
    let bytes = space.bytes();
    let mut tape = Tape::new(alloc);
    let fault = read_run(&mut tape, bytes, frames, run)?;
    assert!(rt; tape.len() < 1000);
    decoding.restart();
    let ended = decoding.taped(alloc, bytes, &tape, fault);
    let page = decoding.change_page(Page::new(alloc));
    out.extend_from_slice(page.lines())?;
    match ended {
        Ok(()) => Ok(None),
        Err(Refused::Malformed(fault)) => Ok(Some(fault)),
        Err(Refused::NoMemory) => Err(AllocError)?,
    }
}

// The lines of all frames, and their first fault.
fn all_lines(
    rt: &impl Abort,
    alloc: Global,
    space: &Space,
    frames: &Frames,
    decoding: &mut Decoding,
    out: &mut Vec<u8>,
) -> Result<Option<Fault>, Fail>
    requires short { length space.now ≤ most_bytes }
    requires indexed { IsIndex space.now frames.now }
    requires lawful { IsLawful space.now decoding.old.state }
{
    for i in 0..frames.count() {
        if let Some(fault) = frame_lines(rt, alloc, space, frames, i, decoding, out)? {
            return Ok(Some(fault));
        }
    }
    Ok(None)
}

// A decoding behind a pointer: a function that has it in place is slow to prove.
fn opened(alloc: Global, bytes: &[u8], options: &Options) -> Result<Box<Decoding>, AllocError>
    requires { ArePassed bytes.now options.now }
    ensures { IfOk result (λ d. IsLawful bytes.now d.value.state) }
{
    let decoding = Decoding::opening(alloc, bytes, options, Writing::Lines)?;
    Ok(Box::new(alloc, decoding)?)
}

// The lines of a file whose first row has options, and its first fault.
fn lines_from_tapes(
    rt: &impl Abort,
    alloc: Global,
    file: &[u8],
    out: &mut Vec<u8>,
) -> Result<Option<Fault>, Fail> {
    assert!(rt; file.len() < 1000);
    let space = Space::from_bytes(alloc, file)?;
    let frames = index(alloc, &space)?;
    let Head::First(options, _) = head(&space) else {
        return Ok(None);
    };
    let mut decoding = opened(alloc, space.bytes(), &options)?;
    all_lines(rt, alloc, &space, &frames, &mut decoding, out)
}

// The files by tapes of their frames.
#[test]
fn lines_of_tapes(rt: HostRuntime) -> Result<(), Fail> {
    let alloc = rt.alloc();
    let fault = Fault {
        place: Place { frame: 2, row: 2 },
        kind: Kind::NoEntry,
    };
    let files: [(&[u8], Option<Fault>, &[u8]); 3] = [
        (ONE, None, b"<a> <a> <a> .\n"),
        (FAULTY, Some(fault), b"<a> <a> <a> .\n<a> <a> <a> .\n"),
        (BLANK, None, b"<a> <a> <a> .\n<a> _:b <a> .\n"),
    ];
    for (file, fault, lines) in files {
        let mut out = Vec::new(alloc);
        let found = lines_from_tapes(&rt, alloc, file, &mut out)?;
        assert_eq!(rt; out.as_slice(), lines);
        assert_eq!(rt; found, fault);
    }
    Ok(())
}

fn is_sent<X: Send>() {}

// A worker may be handed these.
#[test]
fn decodings_are_sent(_rt: HostRuntime) -> Result<(), Fail> {
    is_sent::<Decoding>();
    is_sent::<Page>();
    Ok(())
}

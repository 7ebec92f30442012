ghost use Rattle.std.specs.Prelude.{◌≡◌, ◌<◌, ◌≤◌, ◌^◌, None, IfOk, length};
ghost use Rattle.jl_base.specs.Limits.{most_bytes};
ghost use Rattle.jl_frames.specs.Index.{IsIndex};
ghost use Rattle.jl_state.specs.Lawful.{IsLawful};

use crate::{End, LineMaker, Maker, Resolved, resolve};
use jl_base::{Fault, Items, Kind, Place, Run, Space, Span, Text};
use jl_frames::{Frames, index};
use jl_rows::{GRAPHS, Options, TRIPLES};
use jl_state::State;
use std::alloc::Global;
use std::process::Abort;
use std::test::Fail;

// The lines of a frame as a run of its own, from a state, which is brought along; and its fault.
fn frame_lines(
    alloc: Global,
    space: &Space,
    frames: &Frames,
    i: u64,
    state: &mut State,
    out: &mut Text,
) -> Result<Option<Fault>, Fail>
    requires short { length space.now ≤ most_bytes }
    requires indexed { IsIndex space.now frames.now }
    requires frame { i < length frames.now.bodies }
    requires few { i < 2 ^ 63 }
    requires lawful { IsLawful space.now state.old }
    ensures { IfOk result (λ found. found ≡ None → IsLawful space.now state.new) }
{
    let run = Run {
        lo: 0,
        hi: 0,
        first_frame: frames.first() + i,
        frames: 1,
    };
    let Resolved { items, end } = resolve(alloc, space, frames, run, state)?;
    let lines = LineMaker::new(alloc).make(&items)?;
    out.append(lines.bytes())?;
    match end {
        End::After(after) => {
            *state = after;
            Ok(None)
        }
        End::Faulted(fault) => Ok(Some(fault)),
    }
}

// The lines of all frames, and their first fault.
fn all_lines(
    alloc: Global,
    space: &Space,
    frames: &Frames,
    state: &mut State,
    out: &mut Text,
) -> Result<Option<Fault>, Fail>
    requires short { length space.now ≤ most_bytes }
    requires indexed { IsIndex space.now frames.now }
    requires lawful { IsLawful space.now state.old }
{
    for i in 0..frames.count() {
        if let Some(fault) = frame_lines(alloc, space, frames, i, state, out)? {
            return Ok(Some(fault));
        }
    }
    Ok(None)
}

// The lines of a file of this physical type with tables of eight, and its first fault.
fn lines_of(
    rt: &impl Abort,
    alloc: Global,
    physical: u32,
    file: &[u8],
    out: &mut Text,
) -> Result<Option<Fault>, Fail> {
    assert!(rt; file.len() < 1000);
    let space = Space::from_bytes(alloc, file)?;
    let frames = index(alloc, &space)?;
    let options = Options {
        stream_name: Span { at: 0, len: 0 },
        physical,
        generalized: false,
        star: false,
        names: 8,
        prefixes: 8,
        datatypes: 8,
        logical: 0,
        version: 1,
        strict: false,
    };
    let mut state = Box::new(alloc, State::opening(alloc, space.bytes(), &options)?)?;
    all_lines(alloc, &space, &frames, &mut state, out)
}

// A prefix and a name; p/a p/a "x"@en, and the same subject and predicate with a blank node; then all three again, a
// name that was never written, and all three again.
const TERMS: &[u8] = b"\x2B\
    \x0A\x06\x52\x04\x12\x02p/\x0A\x05\x4A\x03\x12\x01a\
    \x0A\x13\x12\x11\x0A\x02\x08\x01\x2A\x02\x10\x01\x5A\x07\x0A\x01x\x12\x02en\
    \x0A\x05\x12\x03\x52\x01b\
    \x10\x0A\x02\x12\0\x0A\x06\x12\x04\x0A\x02\x10\x05\x0A\x02\x12\0";

// A name, a namespace, and a triple term as a subject; then its object once more.
const NESTED: &[u8] = b"\x2C\
    \x0A\x05\x4A\x03\x12\x01a\
    \x0A\x09\x32\x07\x0A\x01n\x12\x02\x10\x01\
    \x0A\x18\x12\x16\x22\x0C\x0A\x02\x10\x01\x2A\x02\x10\x01\x52\x02bc\
    \x2A\x02\x10\x01\x4A\x02\x10\x01\
    \x07\x0A\x05\x12\x03\x52\x01d";

// A name and the start of a graph; a triple in it, and its end; and an end where no graph is open.
const GRAPH: &[u8] = b"\x0F\
    \x0A\x05\x4A\x03\x12\x01a\x0A\x06\x22\x04\x0A\x02\x10\x01\
    \x12\x0A\x0C\x12\x0A\x12\x01s\x2A\x02\x10\x01\x52\x01o\x0A\x02\x2A\0\
    \x04\x0A\x02\x2A\0";

// Each file's lines, and its fault.
#[test]
fn lines_of_runs(rt: HostRuntime) -> Result<(), Fail> {
    let alloc = rt.alloc();
    let files: [(u32, &[u8], &[u8], Option<(u64, u32, Kind)>); 3] = [
        (
            TRIPLES,
            TERMS,
            b"<p/a> <p/a> \"x\"@en .\n<p/a> <p/a> _:b .\n<p/a> <p/a> _:b .\n",
            Some((2, 2, Kind::NoEntry)),
        ),
        (
            TRIPLES,
            NESTED,
            b"# prefix n <a>\n<< <a> <a> _:bc >> <a> <a> .\n<< <a> <a> _:bc >> <a> _:d .\n",
            None,
        ),
        (
            GRAPHS,
            GRAPH,
            b"_:s <a> _:o <a> .\n",
            Some((3, 1, Kind::NoGraph)),
        ),
    ];
    for (physical, file, lines, fault) in files {
        let mut out = Text::new(alloc);
        let found = lines_of(&rt, alloc, physical, file, &mut out)?;
        assert_eq!(rt; out.bytes(), lines);
        let found = match found {
            Some(
                Fault {
                    place: Place { frame, row },
                    kind,
                },
            ) => Some((frame, row, kind)),
            None => None,
        };
        assert_eq!(rt; found, fault);
    }
    Ok(())
}

fn is_shared<X: Sync>() {}

fn is_sent<X: Send>() {}

// Workers may share a maker, and be handed these.
#[test]
fn makers_are_shared(_rt: HostRuntime) -> Result<(), Fail> {
    is_shared::<LineMaker>();
    is_sent::<State>();
    is_sent::<Items>();
    is_sent::<End>();
    Ok(())
}

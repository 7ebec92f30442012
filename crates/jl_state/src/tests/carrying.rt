ghost use Rattle.std.specs.Prelude.{◌<◌, length, OnOk};
ghost use Rattle.jl_state.specs.Lawful.{IsLawful};

use super::loose;
use crate::{State, bring_texts};
use jl_base::{Space, Span};
use jl_rows::{Options, next_row_at};
use std::alloc::{AllocError, Global};
use std::process::Abort;
use std::test::Fail;

// All rows, none of which is refused.
fn go(alloc: Global, rows: &[u8], state: &mut State) -> Result<(), AllocError>
    requires lawful { IsLawful rows.now state.old }
    requires short { length rows.now < 1000 }
    ensures { OnOk result (IsLawful rows.now state.new) }
{
    let mut at = 0;
    'by_row: while let Ok(Some((row, next))) = next_row_at(rows, at, rows.len()) {
        let Ok(_) = state.step(alloc, rows, &row) else {
            return Err(AllocError);
        };
        at = next;
    }
    Ok(())
}

// What stands in another space after the texts of the state after these rows, and in its own space after these were
// brought there.
fn texts(
    rt: &impl Abort,
    alloc: Global,
    physical: u32,
    rows: &[u8],
) -> Result<(Space, Space), AllocError> {
    assert!(rt; rows.len() < 1000);
    let form = loose(physical);
    let options = Options {
        stream_name: Span { at: 0, len: 0 },
        physical: form.physical,
        generalized: form.generalized,
        star: form.star,
        names: 8,
        prefixes: 8,
        datatypes: 8,
        logical: 0,
        version: form.version,
        strict: form.strict,
    };
    let mut state = State::opening(alloc, rows, &options)?;
    go(alloc, rows, &mut state)?;
    let mut space = Space::from_bytes(alloc, rows)?;
    let mut other = Space::from_bytes(alloc, b"old:")?;
    let _ = state.carry(alloc, &space, &mut other)?;
    let mut aside = Space::from_bytes(alloc, b"aside")?;
    bring_texts(alloc, &mut state, &mut space, &mut aside)?;
    Ok((space, other))
}

// A name a, a prefix p/ and a datatype d; a triple of b, p/a and x in English; an object y of type d; and a subject that
// is a triple term of c, p/a and e.
const TRIPLES: &[u8] = b"\
    \x0A\x05\x4A\x03\x12\x01a\
    \x0A\x06\x52\x04\x12\x02p/\
    \x0A\x05\x5A\x03\x12\x01d\
    \x0A\x14\x12\x12\x12\x01b\x2A\x04\x08\x01\x10\x01\x5A\x07\x0A\x01x\x12\x02en\
    \x0A\x09\x12\x07\x5A\x05\x0A\x01y\x18\x01\
    \x0A\x10\x12\x0E\x22\x0C\x12\x01c\x2A\x04\x08\x01\x10\x01\x52\x01e";

const QUADS: &[u8] = b"\x0A\x0E\x1A\x0C\x12\x01b\x32\x01c\x52\x01e\x72\x01g";

const GRAPHS: &[u8] = b"\x0A\x05\x22\x03\x12\x01g";

#[test]
fn texts_alone_are_brought(rt: HostRuntime) -> Result<(), Fail> {
    let alloc = rt.alloc();
    let cases: [(u32, &[u8], usize, &[u8]); 8] = [
        (1, TRIPLES, 0, b"old:"),
        (1, TRIPLES, 7, b"old:a"),
        (1, TRIPLES, 22, b"old:ap/d"),
        (1, TRIPLES, 44, b"old:ap/dbp/axen"),
        (1, TRIPLES, 55, b"old:ap/dbp/ayd"),
        (1, TRIPLES, 73, b"old:ap/dcp/aep/ayd"),
        (2, QUADS, 16, b"old:bceg"),
        (3, GRAPHS, 7, b"old:g"),
    ];
    for (physical, rows, end, wanted) in cases {
        assert!(rt; end <= rows.len());
        let (space, other) = texts(&rt, alloc, physical, &rows[..end])?;
        assert_eq!(rt; other.bytes(), wanted);
        assert!(rt; wanted.len() >= 4);
        assert_eq!(rt; space.bytes(), &wanted[4..]);
    }
    Ok(())
}

ghost use Rattle.std.specs.Prelude.{◌≤◌, ◌^◌, length};
ghost use Rattle.jl_state.specs.Lawful.{HasMaybe};

mod carrying;

use crate::{Known, State, Stated, Stop};
use jl_base::{Kind, Span};
use jl_rows::{Options, next_row_at};
use std::alloc::{AllocError, Global};
use std::process::Abort;
use std::test::Fail;

// The prefix and the name of a position's IRI, empty where none stands there.
fn iri_of<'a>(bytes: &'a [u8], term: &Option<Known>) -> (&'a [u8], &'a [u8])
    requires { HasMaybe bytes.now term.now }
{
    match term {
        Some(Known::Iri { prefix, name }) => (prefix.text(bytes), name.text(bytes)),
        _ => (b"", b""),
    }
}

// What a file declares, and whether it is held to it.
#[derive(Clone, Copy)]
struct Form {
    physical: u32,
    version: u32,
    strict: bool,
    generalized: bool,
    star: bool,
}

// A file of this physical type that isn't held to anything.
fn loose(physical: u32) -> Form {
    Form {
        physical,
        version: 1,
        strict: false,
        generalized: false,
        star: false,
    }
}

// A file of this physical type that is held to declaring nothing.
fn held(physical: u32) -> Form {
    Form {
        strict: true,
        ..loose(physical)
    }
}

// One that declares triple terms, in the second version.
fn star(physical: u32) -> Form {
    Form {
        star: true,
        version: 2,
        ..held(physical)
    }
}

// One that declares generalized statements.
fn generalized(physical: u32) -> Form {
    Form {
        generalized: true,
        ..held(physical)
    }
}

// What the rows of a file with tables of eight make: how many statements and namespaces, the first fault, and the last
// object's prefix and name.
fn outcome<'a>(
    rt: &impl Abort,
    alloc: Global,
    form: Form,
    rows: &'a [u8],
) -> Result<(u32, Option<Kind>, &'a [u8], &'a [u8]), AllocError> {
    assert!(rt; rows.len() < 1000);
    let options = Options {
        stream_name: Span { at: 0, len: 0 },
        physical: form.physical,
        generalized: form.generalized,
        star: form.star,
        names: 8,
        prefixes: 8,
        datatypes: 8,
        logical: 0,
        version: form.version,
        strict: form.strict,
    };
    let mut state = State::opening(alloc, rows, &options)?;
    let mut stated = 0;
    let mut at = 0;
    'by_row: while let Ok(Some((row, next))) = next_row_at(rows, at, rows.len()) {
        match state.step(alloc, rows, &row) {
            Ok(Stated::Nothing) => {}
            Ok(_) => stated += 1,
            Err(Stop::Fault(kind)) => return Ok((stated, Some(kind), b"", b"")),
            Err(Stop::NoMemory) => return Err(AllocError),
        }
        at = next;
    }
    let (prefix, name) = iri_of(rows, &state.object);
    Ok((stated, None, prefix, name))
}

// Names a and b and a prefix p/, then p/a p/b p/a; c in place of a; the last terms again; an object of the next name;
// and a subject that is a triple term of p/c p/b p/c, with an object of the name after its last.
const ROWS: &[u8] = b"\
    \x0A\x05\x4A\x03\x12\x01a\
    \x0A\x05\x4A\x03\x12\x01b\
    \x0A\x06\x52\x04\x12\x02p/\
    \x0A\x0C\x12\x0A\x0A\x02\x08\x01\x2A\0\x4A\x02\x10\x01\
    \x0A\x07\x4A\x05\x08\x01\x12\x01c\
    \x0A\x02\x12\0\
    \x0A\x04\x12\x02\x4A\0\
    \x0A\x10\x12\x0E\x22\x0A\x0A\x02\x10\x01\x2A\0\x4A\x02\x10\x01\x4A\0";

#[test]
fn last_terms_keep_their_texts(rt: HostRuntime) -> Result<(), Fail> {
    let alloc = rt.alloc();
    let cases: [(usize, u32, &[u8], &[u8]); 6] = [
        (22, 0, b"", b""),
        (36, 1, b"p/", b"a"),
        (45, 1, b"p/", b"a"),
        (49, 2, b"p/", b"a"),
        (55, 3, b"p/", b"b"),
        (73, 4, b"p/", b"b"),
    ];
    for (end, wanted, prefix, name) in cases {
        assert!(rt; end <= ROWS.len());
        let found = outcome(&rt, alloc, loose(1), &ROWS[..end])?;
        assert_eq!(rt; found, (wanted, None, prefix, name));
    }
    Ok(())
}

#[test]
fn first_faults(rt: HostRuntime) -> Result<(), Fail> {
    let alloc = rt.alloc();
    let cases: [(u32, &[u8], u32, Option<Kind>); 15] = [
        (1, b"\x0A\x02\x12\0", 0, Some(Kind::NoTerm)),
        (1, b"\x0A\x02\x1A\0", 0, Some(Kind::WrongRow)),
        (1, b"\x0A\x02\x22\0", 0, Some(Kind::WrongRow)),
        (2, b"\x0A\x02\x12\0", 0, Some(Kind::WrongRow)),
        (3, b"\x0A\x02\x12\0", 0, Some(Kind::NoGraph)),
        (3, b"\x0A\x02\x22\0", 0, Some(Kind::NoTerm)),
        (3, b"\x0A\x02\x2A\0", 0, Some(Kind::NoGraph)),
        (3, b"\x0A\x04\x22\x02\x1A\0\x0A\x02\x2A\0", 0, None),
        (
            3,
            b"\x0A\x04\x22\x02\x1A\0\x0A\x04\x22\x02\x1A\0",
            0,
            Some(Kind::GraphOpen),
        ),
        (
            1,
            b"\x0A\x07\x4A\x05\x08\x09\x12\x01a",
            0,
            Some(Kind::BadEntry),
        ),
        (
            1,
            b"\x0A\x06\x12\x04\x0A\x02\x10\x01",
            0,
            Some(Kind::NoEntry),
        ),
        (1, b"\x0A\x06\x12\x04\x1A\x02\x18\0", 0, Some(Kind::NoEntry)),
        (
            1,
            b"\x0A\x07\x12\x05\x1A\x03\x12\x011",
            0,
            Some(Kind::BadLangtag),
        ),
        (
            1,
            b"\x0A\x0C\x0A\x0A\x10\x01\x48\x08\x50\x08\x58\x08\x78\x01",
            0,
            None,
        ),
        (
            1,
            b"\x0A\x0C\x0A\x0A\x10\x01\x48\x08\x50\x08\x58\x08\x78\x02",
            0,
            Some(Kind::OptionsDiffer),
        ),
    ];
    for (physical, rows, wanted, kind) in cases {
        let found = outcome(&rt, alloc, loose(physical), rows)?;
        assert_eq!(rt; (found.0, found.1), (wanted, kind));
    }
    Ok(())
}

// A name a, and then one row. All IRIs in it are this name's, but for the subject of NO_ENTRY.
const LITERAL_SUBJECT: &[u8] =
    b"\x0A\x05\x4A\x03\x12\x01a\x0A\x0F\x12\x0D\x1A\x03\x0A\x01x\x2A\x02\x10\x01\x4A\x02\x10\x01";

const LABEL_PREDICATE: &[u8] =
    b"\x0A\x05\x4A\x03\x12\x01a\x0A\x0D\x12\x0B\x0A\x02\x10\x01\x32\x01x\x4A\x02\x10\x01";

const NESTED_OBJECT: &[u8] =
    b"\x0A\x05\x4A\x03\x12\x01a\x0A\x18\x12\x16\x0A\x02\x10\x01\x2A\x02\x10\x01\x62\x0C\x0A\x02\x10\x01\x2A\x02\x10\x01\x4A\x02\x10\x01";

const NESTED_PREDICATE: &[u8] =
    b"\x0A\x05\x4A\x03\x12\x01a\x0A\x18\x12\x16\x0A\x02\x10\x01\x42\x0C\x0A\x02\x10\x01\x2A\x02\x10\x01\x4A\x02\x10\x01\x4A\x02\x10\x01";

const LITERAL_INSIDE: &[u8] =
    b"\x0A\x05\x4A\x03\x12\x01a\x0A\x19\x12\x17\x0A\x02\x10\x01\x2A\x02\x10\x01\x62\x0D\x1A\x03\x0A\x01x\x2A\x02\x10\x01\x4A\x02\x10\x01";

const BAD_TAG: &[u8] =
    b"\x0A\x05\x4A\x03\x12\x01a\x0A\x12\x12\x10\x0A\x02\x10\x01\x3A\x06\x0A\x01x\x12\x011\x4A\x02\x10\x01";

const NO_ENTRY: &[u8] =
    b"\x0A\x05\x4A\x03\x12\x01a\x0A\x0F\x12\x0D\x0A\x02\x10\x03\x3A\x03\x0A\x01x\x4A\x02\x10\x01";

const NAMESPACE: &[u8] = b"\x0A\x05\x4A\x03\x12\x01a\x0A\x09\x32\x07\x0A\x01p\x12\x02\x10\x01";

const LITERAL_GRAPH: &[u8] =
    b"\x0A\x05\x4A\x03\x12\x01a\x0A\x14\x1A\x12\x0A\x02\x10\x01\x2A\x02\x10\x01\x4A\x02\x10\x01\x82\x01\x03\x0A\x01x";

const LITERAL_GRAPH_START: &[u8] = b"\x0A\x05\x4A\x03\x12\x01a\x0A\x07\x22\x05\x22\x03\x0A\x01x";

const SAME_OPTIONS: &[u8] =
    b"\x0A\x05\x4A\x03\x12\x01a\x0A\x0C\x0A\x0A\x10\x01\x48\x08\x50\x08\x58\x08\x78\x01";

#[test]
fn rows_held_to_what_is_declared(rt: HostRuntime) -> Result<(), Fail> {
    let alloc = rt.alloc();
    let cases: [(Form, &[u8], u32, Option<Kind>); 17] = [
        (held(1), LITERAL_SUBJECT, 0, Some(Kind::NotPlain)),
        (generalized(1), LITERAL_SUBJECT, 1, None),
        (loose(1), LITERAL_SUBJECT, 1, None),
        (held(1), LABEL_PREDICATE, 0, Some(Kind::NotPlain)),
        (held(1), NESTED_OBJECT, 0, Some(Kind::NoStar)),
        (loose(1), NESTED_OBJECT, 1, None),
        (held(1), NESTED_PREDICATE, 0, Some(Kind::NoStar)),
        (star(1), NESTED_PREDICATE, 0, Some(Kind::NotPlain)),
        (star(1), LITERAL_INSIDE, 0, Some(Kind::NotPlain)),
        (held(1), BAD_TAG, 0, Some(Kind::NotPlain)),
        (held(1), NO_ENTRY, 0, Some(Kind::NoEntry)),
        (held(1), NAMESPACE, 0, Some(Kind::EarlyNamespace)),
        (star(1), NAMESPACE, 1, None),
        (loose(1), NAMESPACE, 1, None),
        (held(2), LITERAL_GRAPH, 0, Some(Kind::NotPlain)),
        (held(3), LITERAL_GRAPH_START, 0, Some(Kind::NotPlain)),
        (held(1), SAME_OPTIONS, 0, None),
    ];
    for (form, rows, wanted, kind) in cases {
        let found = outcome(&rt, alloc, form, rows)?;
        assert_eq!(rt; (found.0, found.1), (wanted, kind));
    }
    Ok(())
}

ghost use Rattle.std.specs.Prelude.{◌≤◌};
ghost use Rattle.jl_base.specs.Spans.{IsInside};
ghost use Rattle.jl_rows.specs.Seen.{HasRow};

use crate::first_row::file_head;
use crate::{
    Head, Options, Physical, RawTerm, Row, Table, head, next_row, next_row_at, triple_term,
};
use jl_base::{Kind, Place, Space, Span};
use std::process::Abort;
use std::test::Fail;

// The frame and the row of a file's head, and its fault.
fn outcome(file: &[u8], strict: bool) -> (u64, u32, Option<Kind>) {
    match file_head(file).under(strict) {
        Head::Empty => (0, 0, None),
        Head::First(_, place) => (place.frame, place.row, None),
        Head::Bad(fault) => (fault.place.frame, fault.place.row, Some(fault.kind)),
    }
}

#[test]
fn heads(rt: HostRuntime) {
    let files: [(&[u8], u64, u32, Option<Kind>); 19] = [
        (b"", 0, 0, None),
        (b"\0\0", 0, 0, None),
        (
            b"\x0E\x0A\x0C\x0A\x0A\x10\x01\x48\x08\x50\x08\x58\x08\x78\x01",
            1,
            1,
            None,
        ),
        (
            b"\0\x05\x7A\x03\x0A\x01k\x0E\x0A\x0C\x0A\x0A\x10\x01\x48\x08\x50\x08\x58\x08\x78\x01",
            3,
            1,
            None,
        ),
        (
            b"\x0F\x0A\x0C\x0A\x0A\x10\x01\x48\x08\x50\x08\x58\x08\x78\x01",
            1,
            0,
            Some(Kind::Truncated),
        ),
        (b"\0\x05\x0A\x04\x4A\x03\x12", 2, 1, Some(Kind::Truncated)),
        (
            b"\xFF\xFF\xFF\xFF\xFF\xFF\xFF\xFF\xFF\xFF",
            1,
            0,
            Some(Kind::BadVarint),
        ),
        (b"\x81\x80\x80\x40", 1, 0, Some(Kind::FrameTooLong)),
        (b"\x01\0", 1, 1, Some(Kind::BadTag)),
        (b"\x02\x08\x01", 1, 1, Some(Kind::WrongWire)),
        (b"\x02\x78\x01", 1, 1, Some(Kind::WrongWire)),
        (b"\x06\x0A\x04\x12\0\x12\0", 1, 1, Some(Kind::Twice)),
        (b"\x06\x0A\x04\x12\0\x10\x05", 1, 1, Some(Kind::WrongWire)),
        (
            b"\x07\x0A\x05\x4A\x03\x12\x01\xFF",
            1,
            1,
            Some(Kind::BadUtf8),
        ),
        (b"\x02\x0A\0", 1, 1, Some(Kind::EmptyRow)),
        (
            b"\x07\x0A\x05\x4A\x03\x12\x01a",
            1,
            1,
            Some(Kind::NoOptions),
        ),
        (
            b"\x0E\x0A\x0C\x0A\x0A\x10\x01\x48\x08\x50\x08\x58\x08\x78\x03",
            1,
            1,
            Some(Kind::BadOptions),
        ),
        (
            b"\x0E\x0A\x0C\x0A\x0A\x10\0\x48\x08\x50\x08\x58\x08\x78\x01",
            1,
            1,
            Some(Kind::BadOptions),
        ),
        (
            b"\x0C\x0A\x0A\x0A\x08\x10\x01\x48\x81\x80\x04\x78\x01",
            1,
            1,
            Some(Kind::TableTooLarge),
        ),
    ];
    for (file, frame, row, kind) in files {
        assert_eq!(rt; outcome(file, false), (frame, row, kind));
    }
}

// A file of one options row under the strict profile: by its name table, its logical type and its physical type.
#[test]
fn heads_under_the_strict_profile(rt: HostRuntime) {
    let cases: [(u8, u8, u8, Option<Kind>); 8] = [
        (8, 0, 1, None),
        (7, 0, 1, Some(Kind::SmallNames)),
        (7, 2, 1, Some(Kind::SmallNames)),
        (8, 2, 1, Some(Kind::BadLogical)),
        (8, 13, 1, None),
        (8, 114, 3, None),
        (8, 1, 2, Some(Kind::BadLogical)),
        (8, 5, 2, Some(Kind::BadLogical)),
    ];
    for (names, logical, physical, kind) in cases {
        let file = [
            14, 10, 12, 10, 10, 16, physical, 72, names, 88, 8, 112, logical, 120, 1,
        ];
        assert_eq!(rt; outcome(&file, true), (1, 1, kind));
        assert_eq!(rt; outcome(&file, false), (1, 1, None));
    }
}

// The outcome of a file of one row, a triple whose subject is a triple term inside so many others.
fn nested_outcome(levels: usize) -> (u64, u32, Option<Kind>)
    requires { levels ≤ 34 }
{
    let mut file = [0x22; 73];
    file[0] = (2 * levels + 4) as u8;
    file[1] = 0x0A;
    file[3] = 0x12;
    for i in 0..levels + 2 {
        file[2 * i + 2] = (2 * (levels + 1 - i)) as u8;
    }
    outcome(&file[..2 * levels + 5], false)
}

#[test]
fn triple_terms_of_depth_32_and_33(rt: HostRuntime) {
    assert_eq!(rt; nested_outcome(32), (1, 1, Some(Kind::NoOptions)));
    assert_eq!(rt; nested_outcome(33), (1, 1, Some(Kind::TooDeep)));
}

#[test]
fn one_entry_in_many_spellings(rt: HostRuntime) {
    let frames: [(&[u8], u32, &[u8]); 8] = [
        (b"\x0A\x07\x4A\x05\x08\x03\x12\x01a", 3, b"a"),
        (b"\x0A\x07\x4A\x05\x12\x01a\x08\x03", 3, b"a"),
        (b"\x0A\x8C\0\xCA\0\x09\x08\x83\x80\0\x92\0\x81\0a", 3, b"a"),
        (
            b"\x0A\x0B\x4A\x09\x08\x83\x80\x80\x80\x10\x12\x01a",
            3,
            b"a",
        ),
        (b"\x0A\x06\x4A\x04\x08\0\x12\0", 0, b""),
        (b"\x0A\x02\x4A\0", 0, b""),
        (
            b"\x10\x01\x7A\x03\x0A\x01k\x0A\x09\x38\x01\x4A\x05\x08\x03\x12\x01a",
            3,
            b"a",
        ),
        (
            b"\x0A\x1A\x4A\x18\x18\x05\x08\x03\x19\0\0\0\0\0\0\0\0\x1A\x01b\x12\x01a\x1D\0\0\0\0",
            3,
            b"a",
        ),
    ];
    for (frame, wanted, text) in frames {
        assert!(rt; frame.len() < 100);
        match next_row_at(frame, 0, frame.len()) {
            Ok(
                Some(
                    (
                        Row::Entry {
                            table: Table::Name,
                            id,
                            text: span,
                        },
                        next,
                    ),
                ),
            ) => {
                assert_eq!(rt; (id, next), (wanted, frame.len()));
                let at = span.at as usize;
                assert_eq!(rt; &frame[at..at + span.len as usize], text);
            }
            _ => assert!(rt; false),
        }
    }
}

// Options of TRIPLES with tables of 8; the same in another order, with zeros and a long varint; the same with a name;
// and a triple whose subject is a triple term.
const FILE: &[u8] = b"\x48\
    \x0A\x0C\x0A\x0A\x10\x01\x48\x08\x50\x08\x58\x08\x78\x01\
    \x0A\x15\x0A\x13\x78\x01\x70\0\x58\x08\x50\x88\0\x48\x08\x20\0\x18\0\x10\x01\x0A\0\
    \x0A\x0F\x0A\x0D\x0A\x01s\x10\x01\x48\x08\x50\x08\x58\x08\x78\x01\
    \x0A\x10\x12\x0E\x22\x0C\x0A\x02\x10\x01\x2A\x02\x10\x02\x4A\x02\x10\x03";

// Whether a row is an options row that says the same, or a triple whose subject is a triple term of these names.
fn says(space: &Space, row: Row, first: &Options) -> Option<bool>
    requires first { IsInside space.now first.now.stream_name }
    requires row { HasRow space.now row }
{
    match row {
        Row::Options(options) => Some(first.same(space.bytes(), &options)),
        Row::Triple(triple) => {
            let Some(RawTerm::Triple(inner)) = triple.s else {
                return None;
            };
            let terms = triple_term(space, inner);
            Some(names(terms.s) == 1 && names(terms.p) == 2 && names(terms.o) == 3)
        }
        _ => None,
    }
}

// The name id of an IRI.
fn names(term: Option<RawTerm>) -> u32 {
    match term {
        Some(RawTerm::Iri(ids)) => ids.name,
        _ => 0,
    }
}

#[test]
fn rows_of_a_space(rt: HostRuntime) -> Result<(), Fail> {
    let alloc = rt.alloc();
    let space = Space::from_bytes(alloc, FILE)?;
    assert_eq!(rt; space.bytes().len(), 73);
    let Head::First(first, place) = head(&space) else {
        return Ok(assert!(rt; false));
    };
    assert_eq!(rt; place, Place { frame: 1, row: 1 });
    assert_eq!(rt; first.form(), Physical::Triples);
    let frame = Span { at: 1, len: 72 };
    let mut at = 1;
    for wanted in [true, true, false, true] {
        assert!(rt; at >= 1 && at <= 73);
        match next_row(&space, frame, at) {
            Ok(Some((row, next))) => {
                assert_eq!(rt; says(&space, row, &first), Some(wanted));
                at = next;
            }
            _ => assert!(rt; false),
        }
    }
    assert_eq!(rt; at, 73);
    assert!(rt; matches!(next_row(&space, frame, at), Ok(None)));
    Ok(())
}

#[test]
fn a_stream_name_is_carried(rt: HostRuntime) -> Result<(), Fail> {
    let alloc = rt.alloc();
    let file = b"\x12\x0A\x10\x0A\x0E\x0A\x02ab\x10\x01\x48\x08\x50\x08\x58\x08\x78\x01";
    let space = Space::from_bytes(alloc, file)?;
    let Head::First(options, _) = head(&space) else {
        return Ok(assert!(rt; false));
    };
    let mut into = Space::from_bytes(alloc, b"xyz")?;
    let carried = options.carry(&space, &mut into)?;
    assert_eq!(rt; into.bytes(), b"xyzab".as_slice());
    assert_eq!(rt; carried.stream_name, Span { at: 3, len: 2 });
    Ok(())
}

use crate::{Stopped, Streamed, count_source, decode_source};
use jl_io::{MemShelf, MemSource};
use jl_lines::{Counts, Writing};
use std::alloc::Global;
use std::test::Fail;

// Options, a name and a triple: a frame of 36 bytes.
const ONE: &[u8] = b"\x23\x0A\x0C\x0A\x0A\x10\x01\x48\x08\x50\x08\x58\x08\x78\x01\
    \x0A\x05\x4A\x03\x12\x01a\x0A\x0C\x12\x0A\x0A\0\x2A\x02\x10\x01\x4A\x02\x10\x01";

// A frame of 8 bytes with a triple that differs from the last one in its object, a blank node.
const NEXT: &[u8] = b"\x07\x0A\x05\x12\x03\x52\x01b";

// A frame of 7 bytes with a triple whose subject names an entry that was never written.
const WRONG: &[u8] = b"\x06\x0A\x04\x12\x02\x0A\0";

// A frame of 9 bytes that ends in a fault of the wire, after a row.
const CUT: &[u8] = b"\x08\x0A\x05\x12\x03\x52\x01c\x0A";

const FIRST: &str = "<a> <a> <a> .\n";

const SECOND: &str = "<a> <a> _:b .\n";

#[derive(Drop)]
struct Case<'a> {
    pieces: &'a [&'a [u8]],
    limit: u64,
    // the read that fails, or none
    fails: &'a [u64],
    // what the sink has room for
    room: usize,
    said: &'a str,
    lines: &'a [&'a str],
}

fn joined(alloc: Global, pieces: &[&[u8]]) -> Result<Vec<u8>, Fail> {
    let mut bytes = Vec::new(alloc);
    for piece in pieces {
        bytes.extend_from_slice(piece)?;
    }
    Ok(bytes)
}

fn told(alloc: Global, how: Result<Streamed, Stopped>) -> Result<String, Fail> {
    Ok(match how {
        Ok(s) => format!(in alloc; "{} frames, {} statements", s.frames, s.counts.statements)?,
        Err(Stopped::Malformed(f)) => {
            format!(in alloc;
                "{:?} at frame {}, row {}",
                f.kind, f.place.frame, f.place.row
            )?
        }
        Err(why) => format!(in alloc; "{why:?}")?,
    })
}

const ROWLESS: &[u8] = b"\0\0\0\0\0\0\0\0\0\0\0\0\0\0\0\0\0\0\0\0";

#[test]
fn lines_of_a_source(rt: HostRuntime) -> Result<(), Fail> {
    let alloc = rt.alloc();
    let many: &[&[u8]] = &[ONE, NEXT, NEXT, NEXT, NEXT, NEXT];
    let all: &[&str] = &[FIRST, SECOND, SECOND, SECOND, SECOND, SECOND];
    let cases = [
        Case {
            pieces: &[],
            limit: 0,
            fails: &[],
            room: 99,
            said: "0 frames, 0 statements",
            lines: &[],
        },
        Case {
            pieces: &[ROWLESS],
            limit: 20,
            fails: &[],
            room: 99,
            said: "20 frames, 0 statements",
            lines: &[],
        },
        Case {
            pieces: many,
            limit: 76,
            fails: &[],
            room: 99,
            said: "6 frames, 6 statements",
            lines: all,
        },
        Case {
            pieces: &[ROWLESS, ONE, NEXT],
            limit: 99,
            fails: &[],
            room: 99,
            said: "22 frames, 2 statements",
            lines: &[FIRST, SECOND],
        },
        Case {
            pieces: &[ONE, NEXT, WRONG, NEXT],
            limit: 99,
            fails: &[],
            room: 99,
            said: "NoEntry at frame 3, row 1",
            lines: &[FIRST, SECOND],
        },
        Case {
            pieces: &[ONE, NEXT, NEXT, b"\x09"],
            limit: 99,
            fails: &[],
            room: 99,
            said: "Truncated at frame 4, row 0",
            lines: &[FIRST, SECOND, SECOND],
        },
        Case {
            pieces: &[ONE, CUT],
            limit: 99,
            fails: &[],
            room: 99,
            said: "Truncated at frame 2, row 2",
            lines: &[FIRST, "<a> <a> _:c .\n"],
        },
        Case {
            pieces: &[ROWLESS, NEXT],
            limit: 99,
            fails: &[],
            room: 99,
            said: "NoOptions at frame 21, row 1",
            lines: &[],
        },
        Case {
            pieces: many,
            limit: 75,
            fails: &[],
            room: 99,
            said: "TooLong",
            lines: &[FIRST, SECOND, SECOND, SECOND, SECOND],
        },
        Case {
            pieces: many,
            limit: 76,
            fails: &[6],
            room: 99,
            said: "ReadFault",
            lines: &[FIRST],
        },
        Case {
            pieces: many,
            limit: 76,
            fails: &[],
            room: 20,
            said: "WriteFault",
            lines: &[FIRST, "<a> <a"],
        },
    ];
    for case in cases {
        let file = joined(alloc, case.pieces)?;
        let mut lines = String::new(alloc);
        for line in case.lines {
            lines.push_str(line)?;
        }
        let mut source = MemSource::new(alloc, &file, 10, case.fails)?;
        let mut shelf = MemShelf::new(alloc, 100, case.room, 1, &[])?;
        let mut left = case.limit.min(1000);
        let result = decode_source(
            alloc,
            &mut source,
            16,
            &mut left,
            false,
            Writing::Lines,
            &mut shelf,
        );
        assert_eq!(rt; told(alloc, result)?.as_str(), case.said);
        assert_eq!(rt; shelf.under_way(), lines.as_bytes());
    }
    Ok(())
}

#[test]
fn items_of_a_source(rt: HostRuntime) -> Result<(), Fail> {
    let alloc = rt.alloc();
    let cases: [(&[&[u8]], u64, &str); 3] = [
        (&[ONE, NEXT, NEXT, NEXT], 60, "4 frames, 4 statements"),
        (&[ONE, NEXT, WRONG], 60, "NoEntry at frame 3, row 1"),
        (&[ONE, NEXT, NEXT], 40, "TooLong"),
    ];
    for (pieces, limit, said) in cases {
        let file = joined(alloc, pieces)?;
        let mut source = MemSource::new(alloc, &file, 10, &[])?;
        let mut left = limit;
        let result = count_source(alloc, &mut source, 16, &mut left, false);
        assert_eq!(rt; told(alloc, result)?.as_str(), said);
    }
    Ok(())
}

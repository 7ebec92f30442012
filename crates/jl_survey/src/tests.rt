use crate::{report_inspect, report_valid, survey};
use jl_base::{Space, Text};
use jl_frames::index;
use jl_text::{Notice, report_fault};
use std::alloc::Global;
use std::process::Abort;
use std::test::Fail;

// TRIPLES with tables of 8, a name, and a triple of it.
const ONE_TRIPLE: [u8; 36] = [
    0x23, 0x0A, 0x0C, 0x0A, 0x0A, 0x10, 0x01, 0x48, 0x08, 0x50, 0x08, 0x58, 0x08, 0x78, 0x01, 0x0A,
    0x05, 0x4A, 0x03, 0x12, 0x01, 0x61, 0x0A, 0x0C, 0x12, 0x0A, 0x0A, 0x00, 0x2A, 0x02, 0x10, 0x01,
    0x4A, 0x02, 0x10, 0x01,
];

// What `inspect` says of the file of these pieces: its report, or the line of its fault.
fn told(rt: &impl Abort, alloc: Global, pieces: &[&[u8]]) -> Result<Text, Fail> {
    let mut bytes = Vec::new(alloc);
    for piece in pieces {
        bytes.extend_from_slice(piece)?;
    }
    let space = Space::from_bytes(alloc, &bytes)?;
    assert!(rt; space.bytes().len() < 1024);
    let frames = index(alloc, &space)?;
    match survey(&space, &frames) {
        Ok(found) => Ok(report_inspect(alloc, &found, &space)?),
        Err(fault) => {
            let line = report_fault(Notice::Malformed { file: 1, fault });
            Ok(Text::from_bytes(alloc, line.bytes())?)
        }
    }
}

const OPTIONS: &str = "options: physical TRIPLES, logical 0, version 1, generalized no, star no\n\
    tables: names 8, prefixes 8, datatypes 8\nstream name: \"\"\noptions rows: 1\n";

#[test]
fn a_triple_is_told(rt: HostRuntime) -> Result<(), Fail> {
    let alloc = rt.alloc();
    let rest = "quads: 0\ngraph starts: 0\ngraph ends: 0\nnamespaces: 0\n\
        name entries: 1\nprefix entries: 0\ndatatype entries: 0\n";
    let one = format!(in alloc; "bytes: 36\nframes: 1\nmetadata: 0\n{OPTIONS}triples: 1\n{rest}")?;
    assert_eq!(rt; told(&rt, alloc, &[&ONE_TRIPLE])?.bytes(), one.as_bytes());
    let two = format!(in alloc; "bytes: 42\nframes: 2\nmetadata: 1\n{OPTIONS}triples: 1\n{rest}")?;
    let metadata = b"\x05\x7A\x03\x0A\x01\x6B";
    assert_eq!(rt;
        told(&rt, alloc, &[&ONE_TRIPLE, metadata])?.bytes(),
        two.as_bytes()
    );
    Ok(())
}

// A triple whose subject's name was never written, and three repeated terms of a statement that wasn't.
#[test]
fn nothing_is_resolved(rt: HostRuntime) -> Result<(), Fail> {
    let alloc = rt.alloc();
    let missing =
        b"\x16\x0A\x0C\x0A\x0A\x10\x01\x48\x08\x50\x08\x58\x08\x78\x01\x0A\x06\x12\x04\x0A\x02\x10\x05";
    let report = format!(in alloc;
        "bytes: 23\nframes: 1\nmetadata: 0\n{OPTIONS}triples: 1\n\
        quads: 0\ngraph starts: 0\ngraph ends: 0\nnamespaces: 0\n\
        name entries: 0\nprefix entries: 0\ndatatype entries: 0\n"
    )?;
    assert_eq!(rt; told(&rt, alloc, &[missing])?.bytes(), report.as_bytes());
    Ok(())
}

// An open graph, rows of other types and differing options are no faults here.
#[test]
fn each_sort_is_counted(rt: HostRuntime) -> Result<(), Fail> {
    let alloc = rt.alloc();
    let options: &[u8] =
        b"\x1B\x0A\x19\x0A\x17\x0A\x05s\"\nt\x7F\x10\x03\x18\x01\x20\x01\x48\x09\x50\x0A\x58\x0B\x70\x03\x78\x02";
    let sorts =
        b"\x38\x0A\x04\x22\x02\x0A\0\x0A\x02\x2A\0\x0A\x02\x1A\0\x0A\x02\x12\0\x0A\x09\x32\x07\x0A\x01p\x12\x02\x10\x01\
        \x0A\x05\x52\x03\x12\x01u\x0A\x05\x5A\x03\x12\x01d\x0A\x05\x4A\x03\x12\x01a\x7A\0\x0A\x02\x0A\0";
    let report = "bytes: 85\nframes: 2\nmetadata: 1\n\
        options: physical GRAPHS, logical 3, version 2, generalized yes, star yes\n\
        tables: names 9, prefixes 10, datatypes 11\nstream name: \"s\\\"\\nt\\u007F\"\n\
        options rows: 2\ntriples: 1\nquads: 1\ngraph starts: 1\ngraph ends: 1\nnamespaces: 1\n\
        name entries: 1\nprefix entries: 1\ndatatype entries: 1\n";
    assert_eq!(rt;
        told(&rt, alloc, &[options, sorts])?.bytes(),
        report.as_bytes()
    );
    Ok(())
}

#[test]
fn empty_file(rt: HostRuntime) -> Result<(), Fail> {
    let alloc = rt.alloc();
    let report =
        "bytes: 0\nframes: 0\nmetadata: 0\noptions: none\noptions rows: 0\ntriples: 0\nquads: 0\n\
        graph starts: 0\ngraph ends: 0\nnamespaces: 0\nname entries: 0\nprefix entries: 0\ndatatype entries: 0\n";
    assert_eq!(rt; told(&rt, alloc, &[])?.bytes(), report.as_bytes());
    let valid = report_valid(alloc, 1, 20, 300)?;
    assert_eq!(rt;
        valid.bytes(),
        b"valid: 1 frames, 20 statements, 300 namespaces\n".as_slice()
    );
    Ok(())
}

#[test]
fn faults_of_the_wire(rt: HostRuntime) -> Result<(), Fail> {
    let alloc = rt.alloc();
    let rows: [(&[&[u8]], &[u8]); 4] = [
        (
            &[&ONE_TRIPLE, b"\x03\x0A\x05\x4A", b"\xFF"],
            b"jellyp: malformed: file 1, frame 2, row 1: Truncated\n",
        ),
        (
            &[&ONE_TRIPLE, b"\x05\x0A"],
            b"jellyp: malformed: file 1, frame 2, row 0: Truncated\n",
        ),
        (
            &[b"\x07\x0A\x05\x4A\x03\x12\x01a", b"\xFF"],
            b"jellyp: malformed: file 1, frame 1, row 1: NoOptions\n",
        ),
        (
            &[&ONE_TRIPLE, b"\x06\x0A\x02\x12\0\x78\x01"],
            b"jellyp: malformed: file 1, frame 2, row 2: WrongWire\n",
        ),
    ];
    for (pieces, line) in rows {
        assert_eq!(rt; told(&rt, alloc, pieces)?.bytes(), line);
    }
    Ok(())
}

use crate::{Ended, Tally, count_items, write_lines};
use jl_base::{Fault, Kind, Place, Shelf, Space};
use jl_drive::Gate;
use jl_io::MemShelf;
use jl_lines::Refused;
use std::test::Fail;

// Options, a name and a triple.
const ONE: &[u8] = b"\x23\x0A\x0C\x0A\x0A\x10\x01\x48\x08\x50\x08\x58\x08\x78\x01\
    \x0A\x05\x4A\x03\x12\x01a\x0A\x0C\x12\x0A\x0A\0\x2A\x02\x10\x01\x4A\x02\x10\x01";

// The same, and a frame whose second row names an entry that was never written.
const FAULTY: &[u8] = b"\x23\x0A\x0C\x0A\x0A\x10\x01\x48\x08\x50\x08\x58\x08\x78\x01\
    \x0A\x05\x4A\x03\x12\x01a\x0A\x0C\x12\x0A\x0A\0\x2A\x02\x10\x01\x4A\x02\x10\x01\
    \x0C\x0A\x02\x12\0\x0A\x06\x12\x04\x0A\x02\x10\x05";

// The first one, and a frame with a triple that differs in its predicate, a blank node.
const BLANK: &[u8] = b"\x23\x0A\x0C\x0A\x0A\x10\x01\x48\x08\x50\x08\x58\x08\x78\x01\
    \x0A\x05\x4A\x03\x12\x01a\x0A\x0C\x12\x0A\x0A\0\x2A\x02\x10\x01\x4A\x02\x10\x01\
    \x07\x0A\x05\x12\x03\x32\x01b";

// Nobody watches.
struct Unseen;

impl Gate for Unseen {
    fn enter(&self, _worker: u32, _run: u64) {}
}

// How the writing of a file's lines ended, and what was written.
#[test]
fn lines_of_a_file(rt: HostRuntime) -> Result<(), Fail> {
    let alloc = rt.alloc();
    let fault = Fault {
        place: Place { frame: 2, row: 2 },
        kind: Kind::NoEntry,
    };
    let files: [(&[u8], usize, bool, &[u8]); 4] = [
        (b"", 0, true, b""),
        (ONE, 100, true, b"<a> <a> <a> .\n"),
        (FAULTY, 100, false, b"<a> <a> <a> .\n<a> <a> <a> .\n"),
        (ONE, 5, false, b"<a> <"),
    ];
    for (file, room, whole, lines) in files {
        let space = Space::from_bytes(alloc, file)?;
        let mut shelf = MemShelf::new(alloc, 100, room, 1, &[])?;
        match write_lines(&rt, alloc, &space, 1, 3, false, &mut shelf, &Unseen) {
            Ended::Whole => assert!(rt; whole),
            Ended::Malformed(found) => assert_eq!(rt; found, fault),
            Ended::WriteFault => assert_eq!(rt; room, 5),
            Ended::NoMemory => assert!(rt; false),
        }
        assert_eq!(rt; shelf.turn().is_ok(), true);
        assert_eq!(rt; shelf.part(0), lines);
    }
    Ok(())
}

// The same files by how many items they have, under runs of one frame.
#[test]
fn items_of_a_file(rt: HostRuntime) -> Result<(), Fail> {
    let alloc = rt.alloc();
    let files: [(&[u8], u64, u64); 3] = [(b"", 0, 0), (b"\0\0", 2, 0), (ONE, 1, 1)];
    for (file, frames, statements) in files {
        let space = Space::from_bytes(alloc, file)?;
        let tally = Tally {
            frames,
            statements,
            namespaces: 0,
        };
        match count_items(&rt, alloc, &space, 1, 1, false, &Unseen) {
            Ok(found) => assert_eq!(rt; found, tally),
            Err(_) => assert!(rt; false),
        }
    }
    let space = Space::from_bytes(alloc, FAULTY)?;
    match count_items(&rt, alloc, &space, 1, 1, false, &Unseen) {
        Err(Refused::Malformed(found)) => assert_eq!(rt; found.kind, Kind::NoEntry),
        _ => assert!(rt; false),
    }
    Ok(())
}

// A predicate that is no IRI is a fault under the strict profile, and no other one.
#[test]
fn lines_under_the_strict_profile(rt: HostRuntime) -> Result<(), Fail> {
    let alloc = rt.alloc();
    let fault = Fault {
        place: Place { frame: 2, row: 1 },
        kind: Kind::NotPlain,
    };
    let space = Space::from_bytes(alloc, BLANK)?;
    let modes: [(bool, &[u8]); 2] = [
        (false, b"<a> <a> <a> .\n<a> _:b <a> .\n"),
        (true, b"<a> <a> <a> .\n"),
    ];
    for (strict, lines) in modes {
        let mut shelf = MemShelf::new(alloc, 100, 100, 1, &[])?;
        match write_lines(&rt, alloc, &space, 1, 1, strict, &mut shelf, &Unseen) {
            Ended::Whole => assert_eq!(rt; strict, false),
            Ended::Malformed(found) => assert_eq!(rt; found, fault),
            _ => assert!(rt; false),
        }
        assert_eq!(rt; shelf.turn().is_ok(), true);
        assert_eq!(rt; shelf.part(0), lines);
    }
    Ok(())
}

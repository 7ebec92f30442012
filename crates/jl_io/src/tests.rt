mod odd;

use super::*;
use jl_base::{Failed, FillFault, Shelf, Sink, Space, Text, write_all};
use odd::{Heard, Odd};
use std::alloc::Global;
use std::cell::Cell;
use std::process::Abort;
use std::rt::Runtime;
use std::test::Fail;
use std::{env, fs, process, str};

fn text(alloc: Global, letters: &str) -> Result<Text, Fail> {
    Ok(Text::from_bytes(alloc, letters.as_bytes())?)
}

#[test]
fn a_space_is_filled_in_pieces(rt: HostRuntime) -> Result<(), Fail> {
    let alloc = rt.alloc();
    let rows: [(&[u64], u64, Result<(), FillFault>, &[u8]); 4] = [
        (&[], 5, Ok(()), b"+hello"),
        (&[], 4, Err(FillFault::TooLong), b"+hello"),
        (&[2], 5, Err(FillFault::ReadFault), b"+he"),
        (&[5], 5, Ok(()), b"+hello"),
    ];
    for (fails, limit, want, bytes) in rows {
        let mut space = Space::new(alloc);
        space.fill(&mut MemSource::new(alloc, b"+", 1, &[])?, 1)?;
        let mut source = MemSource::new(alloc, b"hello", 2, fails)?;
        assert_eq!(rt; space.fill(&mut source, limit), want);
        assert_eq!(rt; space.bytes(), bytes);
    }
    Ok(())
}

#[test]
fn a_shelf_fails_at_its_calls(rt: HostRuntime) -> Result<(), Fail> {
    let alloc = rt.alloc();
    let mut shelf = MemShelf::new(alloc, 2, 6, 1, &[4])?;
    assert_eq!(rt; write_all(&mut shelf, b"abc"), Ok(()));
    assert_eq!(rt; shelf.turn(), Ok(()));
    assert_eq!(rt; write_all(&mut shelf, b"d"), Err(Failed));
    assert_eq!(rt; shelf.turn(), Err(Failed));
    assert_eq!(rt; write_all(&mut shelf, b"efgh"), Err(Failed));
    assert_eq!(rt; shelf.finished(), 1);
    assert_eq!(rt; shelf.part(0), b"abc".as_slice());
    assert_eq!(rt; shelf.under_way(), b"efg".as_slice());
    Ok(())
}

// A name in the folder for files that may go, which no other test has.
fn free_name(rt: &HostRuntime, end: &str) -> Result<Text, Fail> {
    let folder = env::temp_dir(rt)?;
    let id = process::id(rt.process());
    let name = format!(in rt.alloc(); "{}/jl_io-{id}-{end}", folder.as_str())?;
    text(rt.alloc(), name.as_str())
}

// The file of this name has these bytes, and is removed.
fn is_file_of<R: Runtime + Abort>(
    rt: &R,
    alloc: Global,
    name: &Text,
    bytes: &[u8],
) -> Result<(), Fail> {
    let mut space = Space::new(alloc);
    let mut source = FileSource::new(rt, name.copy()?);
    assert_eq!(rt; space.fill(&mut source, bytes.len() as u64), Ok(()));
    assert!(rt; space.bytes() == bytes);
    let Ok(name) = str::from_utf8(name.bytes()) else {
        return Ok(assert!(rt; false));
    };
    fs::remove_file(rt, name)?;
    Ok(())
}

#[test]
fn each_part_has_a_file(rt: HostRuntime) -> Result<(), Fail> {
    let alloc = rt.alloc();
    let name = free_name(&rt, "parts")?;
    let mut shelf = FileShelf::new(rt.clone()?, alloc, Some(name.copy()?), true)?;
    assert_eq!(rt; write_all(&mut shelf, b"o"), Ok(()));
    assert_eq!(rt; write_all(&mut shelf, b"ne"), Ok(()));
    assert_eq!(rt; shelf.turn(), Ok(()));
    assert_eq!(rt; write_all(&mut shelf, b"tw"), Ok(()));
    assert_eq!(rt; write_all(&mut shelf, b"o"), Ok(()));
    assert_eq!(rt; shelf.turn(), Ok(()));
    for (end, want) in [(".1.jelly", b"one"), (".2.jelly", b"two")] {
        let mut path = name.copy()?;
        path.append(end.as_bytes())?;
        is_file_of(&rt, alloc, &path, want.as_slice())?;
    }
    Ok(())
}

#[test]
fn one_file_takes_every_part(rt: HostRuntime) -> Result<(), Fail> {
    let alloc = rt.alloc();
    let name = free_name(&rt, "one")?;
    let mut bytes = Vec::new(alloc);
    for n in 0..200_000u32 {
        bytes.push((n % 251) as u8)?;
    }
    let mut shelf = FileShelf::new(rt.clone()?, alloc, Some(name.copy()?), false)?;
    assert_eq!(rt; write_all(&mut shelf, &bytes), Ok(()));
    assert_eq!(rt; shelf.turn(), Ok(()));
    assert_eq!(rt; write_all(&mut shelf, b"and more"), Ok(()));
    bytes.extend_from_slice(b"and more")?;
    is_file_of(&rt, alloc, &name, &bytes)
}

#[test]
fn what_is_missing_fails(rt: HostRuntime) -> Result<(), Fail> {
    let alloc = rt.alloc();
    let mut missing = FileSource::new(rt.clone()?, free_name(&rt, "missing")?);
    assert_eq!(rt;
        Space::new(alloc).fill(&mut missing, 3),
        Err(FillFault::ReadFault)
    );
    let mut unnamed = FileSource::new(rt.clone()?, Text::from_bytes(alloc, b"\xff")?);
    assert_eq!(rt;
        Space::new(alloc).fill(&mut unnamed, 3),
        Err(FillFault::ReadFault)
    );
    Ok(())
}

#[test]
fn a_file_fails_after_its_first_bytes(rt: HostRuntime) -> Result<(), Fail> {
    let alloc = rt.alloc();
    let mut space = Space::new(alloc);
    let mut source = FileSource::new(Odd, text(alloc, "odd")?);
    assert_eq!(rt; space.fill(&mut source, 3), Err(FillFault::ReadFault));
    assert_eq!(rt; space.bytes(), b"a".as_slice());
    let mut shelf = FileShelf::new(Odd, alloc, Some(text(alloc, "odd")?), false)?;
    assert_eq!(rt; shelf.write(b"abcdef"), Ok(2));
    assert_eq!(rt; shelf.write(b"c"), Ok(1));
    assert_eq!(rt; shelf.write(b"def"), Err(Failed));
    let mut out = FileShelf::new(Odd, alloc, None, false)?;
    assert_eq!(rt; out.write(b"abc"), Ok(1));
    assert_eq!(rt; out.write(b""), Err(Failed));
    Ok(())
}

#[test]
fn long_notices_are_printed_whole(rt: HostRuntime) -> Result<(), Fail> {
    let alloc = rt.alloc();
    let bytes = Cell::new(0);
    let mut err = ErrSink::new(Heard {
        bytes: &bytes,
        alloc,
    });
    let notice = [b'n'; 300];
    assert_eq!(rt; write_all(&mut err, &notice), Ok(()));
    assert_eq!(rt; bytes.get(), 300);
    assert_eq!(rt; write_all(&mut err, b"\xff"), Err(Failed));
    assert_eq!(rt; bytes.get(), 300);
    Ok(())
}

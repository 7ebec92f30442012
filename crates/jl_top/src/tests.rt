ghost use Rattle.std.specs.Prelude.{◌≤◌};

mod rows;
mod strict;
mod workers;

use super::*;
use jl_base::Text;
use jl_io::{MemShelf, MemSource};
use rows::{KINDS, LASTS, REPEATED, REPORTS, ROWS};
use std::alloc::{AllocError, Global};
use std::test::Fail;
use std::thread::Threads;
use strict::STRICT;

const ROOM: usize = 16384;

const TRIPLE: &[u8] = b"<a> <a> <a> .\n";

const NQUADS: &[&str] = &["nquads", "f"];

struct Open;

impl Gate for Open {
    fn enter(&self, _worker: u32, _run: u64) {}
}

fn digit(letter: u8) -> u8
    ensures { result ≤ 15 }
{
    match letter {
        b'0'..=b'9' => letter - b'0',
        b'a'..=b'f' => letter - b'a' + 10,
        _ => 0,
    }
}

// Appends the bytes that stand there in hexadecimal.
fn push_bytes(bytes: &mut Vec<u8>, digits: &str) -> Result<(), AllocError> {
    for pair in digits.as_bytes().chunks_exact(2) {
        if let [high, low] = pair {
            bytes.push(16 * digit(*high) + digit(*low))?;
        }
    }
    Ok(())
}

fn bytes_of(alloc: Global, digits: &str) -> Result<Vec<u8>, AllocError> {
    let mut bytes = Vec::new(alloc);
    push_bytes(&mut bytes, digits)?;
    Ok(bytes)
}

fn texts(alloc: Global, words: &[&str]) -> Result<Vec<Text>, AllocError> {
    let mut texts = Vec::new(alloc);
    for word in words {
        texts.push(Text::from_bytes(alloc, word.as_bytes())?)?;
    }
    Ok(texts)
}

// What the program leaves on the shelf and on the error sink.
#[derive(Drop)]
struct Left {
    status: u8,
    out: MemShelf,
    err: MemShelf,
}

// The program over devices in memory that take and give five bytes at a time, and fail at these calls.
fn served<R: Threads + Sync>(
    rt: &R,
    alloc: Global,
    words: &[&str],
    file: &[u8],
    fails: [&[u64]; 3],
) -> Result<Left, AllocError> {
    served_by(rt, alloc, words, file, fails, &Open)
}

// The same with a gate.
fn served_by<R: Threads + Sync, G: Gate>(
    rt: &R,
    alloc: Global,
    words: &[&str],
    file: &[u8],
    [reads, writes, tells]: [&[u64]; 3],
    gate: &G,
) -> Result<Left, AllocError> {
    let words = texts(alloc, words)?;
    let mut sources = Vec::new(alloc);
    for _ in files(&words) {
        sources.push(MemSource::new(alloc, file, 10, reads)?)?;
    }
    let mut out = MemShelf::new(alloc, 5, ROOM, 0, writes)?;
    let mut err = MemShelf::new(alloc, 5, ROOM, 0, tells)?;
    let status = serve(rt, alloc, &words, &mut sources, &mut out, &mut err, gate);
    Ok(Left { status, out, err })
}

#[test]
fn worked_files(rt: HostRuntime) -> Result<(), Fail> {
    let alloc = rt.alloc();
    let words: [&[&str]; 4] = [
        NQUADS,
        &["nquads", "--workers=1", "f"],
        &["nquads", "--workers=4", "--run=1", "f"],
        &["nquads", "--run=2", "--workers=8", "f"],
    ];
    for row in &ROWS {
        let file = bytes_of(alloc, row.file)?;
        for words in words {
            let left = served(&rt, alloc, words, &file, [&[], &[], &[]])?;
            assert_eq!(rt; left.status, row.status, "at {}", row.name);
            assert_eq!(rt; left.out.under_way(), row.out.as_bytes(), "at {}", row.name);
            assert_eq!(rt; left.err.under_way(), row.err.as_bytes(), "at {}", row.name);
        }
    }
    Ok(())
}

#[test]
fn fault_in_fourth_of_ninety_frames(rt: HostRuntime) -> Result<(), Fail> {
    let alloc = rt.alloc();
    let first = "150a0c0a0a100148085008580878010a054a03120161";
    let triple = "100a0e120c0a0210012a0210014a021001";
    let mut file = bytes_of(alloc, first)?;
    push_bytes(&mut file, triple)?;
    push_bytes(&mut file, triple)?;
    push_bytes(&mut file, "0c0a0212000a0612040a021005")?;
    for _ in 0..85 {
        push_bytes(&mut file, REPEATED)?;
    }
    push_bytes(&mut file, "040a021a00")?;
    let eight: &[&str] = &["nquads", "--workers=8", "--run=1", "f"];
    for words in [NQUADS, eight] {
        let left = served(&rt, alloc, words, &file, [&[], &[], &[]])?;
        assert_eq!(rt; left.status, 1);
        let lines = b"<a> <a> <a> .\n<a> <a> <a> .\n<a> <a> <a> .\n".as_slice();
        assert_eq!(rt; left.out.under_way(), lines);
        let line = b"jellyp: malformed: file 1, frame 4, row 2: NoEntry\n".as_slice();
        assert_eq!(rt; left.err.under_way(), line);
    }
    Ok(())
}

#[test]
fn reports(rt: HostRuntime) -> Result<(), Fail> {
    let alloc = rt.alloc();
    for report in &REPORTS {
        let file = bytes_of(alloc, report.file)?;
        let left = served(&rt, alloc, &[report.command, "f"], &file, [&[], &[], &[]])?;
        assert_eq!(rt; left.status, report.status);
        assert_eq!(rt; left.out.under_way(), report.out.as_bytes());
        assert_eq!(rt; left.err.under_way(), report.err.as_bytes());
    }
    Ok(())
}

#[test]
fn strict_and_not(rt: HostRuntime) -> Result<(), Fail> {
    let alloc = rt.alloc();
    for row in &STRICT {
        let file = bytes_of(alloc, row.file)?;
        let left = served(
            &rt,
            alloc,
            &[row.command, row.option, "f"],
            &file,
            [&[], &[], &[]],
        )?;
        assert_eq!(rt; left.status, row.status, "at {}", row.file);
        assert_eq!(rt; left.out.under_way(), row.out.as_bytes(), "at {}", row.file);
        assert_eq!(rt; left.err.under_way(), row.err.as_bytes(), "at {}", row.file);
    }
    Ok(())
}

// Sixty-four runs of sixteen frames are a wave. Some frames more make a second one, and then the file ends in a length.
#[test]
fn tail_fault_behind_two_waves(rt: HostRuntime) -> Result<(), Fail> {
    let alloc = rt.alloc();
    let mut file = bytes_of(alloc, ROWS[0].file)?;
    let mut lines = Vec::new(alloc);
    lines.extend_from_slice(TRIPLE)?;
    for _ in 1..1030 {
        push_bytes(&mut file, REPEATED)?;
        lines.extend_from_slice(TRIPLE)?;
    }
    file.push(5)?;
    let left = served(&rt, alloc, NQUADS, &file, [&[], &[], &[]])?;
    let line = b"jellyp: malformed: file 1, frame 1031, row 0: Truncated\n".as_slice();
    assert_eq!(rt; left.status, 1);
    assert_eq!(rt; left.out.under_way(), lines.as_slice());
    assert_eq!(rt; left.err.under_way(), line);
    Ok(())
}

#[test]
fn faults_of_each_kind(rt: HostRuntime) -> Result<(), Fail> {
    let alloc = rt.alloc();
    for (digits, frame, row, kind) in KINDS {
        // Behind no empty frame, and behind 69.
        for empty in [0u8, 69] {
            let mut file = Vec::new(alloc);
            file.resize(usize::from(empty), 0)?;
            push_bytes(&mut file, digits)?;
            let frame = u32::from(frame) + u32::from(empty);
            let line = format!(in alloc;
                "jellyp: malformed: file 1, frame {frame}, row {row}: {kind}\n"
            )?;
            let left = served(&rt, alloc, NQUADS, &file, [&[], &[], &[]])?;
            assert_eq!(rt; left.status, 1);
            assert_eq!(rt; left.out.under_way(), b"".as_slice());
            assert_eq!(rt; left.err.under_way(), line.as_bytes());
        }
    }
    Ok(())
}

#[test]
fn faults_of_the_last_of_seventy_frames(rt: HostRuntime) -> Result<(), Fail> {
    let alloc = rt.alloc();
    let mut lines = Vec::new(alloc);
    for _ in 0..69 {
        lines.extend_from_slice(TRIPLE)?;
    }
    for (first, last, row, kind) in LASTS {
        let mut file = bytes_of(alloc, first)?;
        for _ in 0..68 {
            push_bytes(&mut file, REPEATED)?;
        }
        push_bytes(&mut file, last)?;
        let line = format!(in alloc; "jellyp: malformed: file 1, frame 70, row {row}: {kind}\n")?;
        let left = served(&rt, alloc, NQUADS, &file, [&[], &[], &[]])?;
        assert_eq!(rt; left.status, 1);
        assert_eq!(rt; left.out.under_way(), lines.as_slice());
        assert_eq!(rt; left.err.under_way(), line.as_bytes());
    }
    Ok(())
}

#[test]
fn devices_that_fail_and_words_that_ask_for_nothing(rt: HostRuntime) -> Result<(), Fail> {
    let alloc = rt.alloc();
    let file = bytes_of(alloc, ROWS[0].file)?;
    let usage = "usage: jellyp COMMAND [--NAME=VALUE]... [FILE]...\n";
    let rows: [(&[&str], [&[u64]; 3], u8, &[u8], &str); 10] = [
        (
            NQUADS,
            [&[2], &[], &[]],
            3,
            b"",
            "jellyp: read fault: file 1\n",
        ),
        (
            NQUADS,
            [&[], &[2], &[]],
            4,
            b"<a> <",
            "jellyp: write fault\n",
        ),
        (NQUADS, [&[], &[2], &[3]], 4, b"<a> <", "jellyp: wr"),
        (NQUADS, [&[6], &[4], &[1]], 0, TRIPLE, ""),
        (&[], [&[], &[], &[]], 2, b"", usage),
        (&["nquads"], [&[], &[], &[]], 2, b"", usage),
        (&["nquads", ""], [&[], &[], &[]], 2, b"", usage),
        (&["nquads", "--f"], [&[], &[], &[]], 2, b"", usage),
        (&["nquads", "--", "--f"], [&[], &[], &[]], 0, TRIPLE, ""),
        (&["nquads", "f", "g"], [&[], &[], &[1]], 2, b"", ""),
    ];
    for (words, fails, status, out, err) in rows {
        let left = served(&rt, alloc, words, &file, fails)?;
        assert_eq!(rt; left.status, status);
        assert_eq!(rt; left.out.under_way(), out);
        assert_eq!(rt; left.err.under_way(), err.as_bytes());
    }
    Ok(())
}

ghost use Rattle.std.specs.Prelude.{◌≡◌, ℕ, ◌<◌, ◌≤◌, ◌^◌, List, length};
ghost use Rattle.jl_rows.specs.Heads.{ArePassed};
ghost use Rattle.jl_scan.specs.Files.{IsFile, field_of};

use crate::drive_items;
use jl_base::{Fault, Kind, Place, Space, Span, Text};
use jl_cells::Cells;
use jl_drive::Gate;
use jl_frames::{Plan, index};
use jl_resolve::LineMaker;
use jl_rows::{Options, TRIPLES};
use jl_scan::{File, Scan, Scanned, blocks};
use std::alloc::Global;
use std::marker::Brand;
use std::process::Abort;
use std::test::Fail;
use std::thread::Threads;

// Nobody watches.
struct Unseen;

impl Gate for Unseen {
    fn enter(&self, _worker: u32, _run: u64) {}
}

fn tables_of_eight() -> Options
    ensures { (bytes : List ℕ) → ArePassed bytes result }
{
    Options {
        stream_name: Span { at: 0, len: 0 },
        physical: TRIPLES,
        generalized: false,
        star: false,
        names: 8,
        prefixes: 8,
        datatypes: 8,
        logical: 0,
        version: 1,
        strict: false,
    }
}

// The lines that so many workers make of a file's first runs from its opening state, with their fault, and whether there
// is a state after them. Whoever makes a scan is generic in what it is of.
fn lines_of<R: Threads + Sync, F: Scanned + Send + Sync>(
    rt: &R,
    alloc: Global,
    file: File<'_>,
    runs: u64,
    workers: u32,
    out: &mut Text,
) -> Result<(Option<Fault>, bool), Fail>
    requires file { IsFile file }
    requires field { F.field ≡ field_of file 0 }
    requires few { runs ≤ 2 ^ 32 }
    requires within { runs ≤ length file.plan.now }
    requires workers { (0 < workers) × (workers ≤ 64) }
{
    let scan: Scan<'_, F> = Scan::new(file, 0, runs, Cells::new(alloc, blocks(runs))?);
    let from = Box::new(alloc, scan.opening(alloc)?)?;
    let maker = LineMaker::new(alloc);
    let driven = drive_items(rt, alloc, &scan, &from, &maker, workers, &Unseen)?;
    for piece in driven.pieces.iter() {
        out.append(piece.made.bytes())?;
    }
    Ok((driven.fault, driven.after.is_some()))
}

// The same of a file with a run for each of its frames.
fn file_lines<R: Threads + Sync + Abort>(
    rt: &R,
    alloc: Global,
    bytes: &[u8],
    workers: u32,
    out: &mut Text,
) -> Result<(Option<Fault>, bool), Fail> {
    let space = Space::from_bytes(alloc, bytes)?;
    assert!(rt; space.bytes().len() <= 1000);
    let frames = index(alloc, &space)?;
    let plan = Plan::cut(alloc, &frames, 1)?;
    let runs = plan.runs();
    assert!(rt; runs <= 64);
    assert!(rt; 0 < workers && workers <= 64);
    let options = tables_of_eight();
    let file = File {
        space: &space,
        frames: &frames,
        plan: &plan,
        options: &options,
    };
    lines_of::<R, Brand>(rt, alloc, file, runs, workers, out)
}

// A name, and a triple of it with a blank node b; the same with c; and that one again.
const WHOLE: &[u8] = b"\x16\x0A\x05\x4A\x03\x12\x01a\
    \x0A\x0D\x12\x0B\x0A\x02\x10\x01\x2A\x02\x10\x01\x52\x01b\
    \x07\x0A\x05\x12\x03\x52\x01c\
    \x04\x0A\x02\x12\0";

// The same, but the third frame's second row is of a name that was never written; a row follows it, and a frame.
const FAULTY: &[u8] = b"\x16\x0A\x05\x4A\x03\x12\x01a\
    \x0A\x0D\x12\x0B\x0A\x02\x10\x01\x2A\x02\x10\x01\x52\x01b\
    \x07\x0A\x05\x12\x03\x52\x01c\
    \x10\x0A\x02\x12\0\x0A\x06\x12\x04\x0A\x02\x10\x05\x0A\x02\x12\0\
    \x07\x0A\x05\x12\x03\x52\x01d";

// Lines end with the first fault, whoever makes them.
#[test]
fn lines_up_to_the_fault(rt: HostRuntime) -> Result<(), Fail> {
    let alloc = rt.alloc();
    let fault = Fault {
        place: Place { frame: 3, row: 2 },
        kind: Kind::NoEntry,
    };
    let lines: &[u8] = b"<a> <a> _:b .\n<a> <a> _:c .\n<a> <a> _:c .\n";
    let cases: [(&[u8], u32, &[u8], Option<Fault>); 5] = [
        (b"", 2, b"", None),
        (WHOLE, 1, lines, None),
        (WHOLE, 2, lines, None),
        (FAULTY, 1, lines, Some(fault)),
        (FAULTY, 2, lines, Some(fault)),
    ];
    for (file, workers, lines, fault) in cases {
        let mut out = Text::new(alloc);
        let (found, stands) = file_lines(&rt, alloc, file, workers, &mut out)?;
        assert_eq!(rt; out.bytes(), lines);
        assert_eq!(rt; found, fault);
        assert_eq!(rt; stands, fault.is_none());
    }
    Ok(())
}

ghost use Rattle.std.specs.Prelude.{◌≡◌, ◌+◌, ◌<◌, ◌≤◌, ◌^◌, ℕ, List, length, IfOk};
ghost use Rattle.jl_apply.specs.Applying.{HasAfter};
ghost use Rattle.jl_rows.specs.Heads.{ArePassed};
ghost use Rattle.jl_rows.specs.Seen.{options_seen};
ghost use Rattle.jl_state.specs.Extents.{AreSound};
ghost use Rattle.jl_state.specs.Lawful.{HasMaybe};
ghost use Rattle.jl_sym.specs.Lawful.{IsLawful};
ghost use Rattle.jl_compose.specs.Blocks.{all_rows, AreLawful, IsBounded};

use crate::{Block, compose};
use jl_apply::{Halt, Outcome};
use jl_base::{Fault, Kind, Place, Span};
use jl_rows::{Options, TRIPLES};
use jl_state::{Extent, Known, State};
use jl_sym::{Marks, Summary, summarise_tape};
use jl_tape::{Tape, read_frame};
use std::alloc::{AllocError, Global};
use std::process::Abort;
use std::test::Fail;

// The options of a file of triples, with a table of so many names alone.
fn options(names: u32) -> Options
    requires { names ≤ 100 }
    ensures { (bytes : List ℕ) → ArePassed bytes result }
{
    Options {
        stream_name: Span { at: 0, len: 0 },
        physical: TRIPLES,
        generalized: false,
        star: false,
        names,
        prefixes: 0,
        datatypes: 0,
        logical: 0,
        version: 1,
        strict: false,
    }
}

// The summary of the rows between these places, as a frame of this number.
fn summary_of(
    alloc: Global,
    rows: &[u8],
    options: &Options,
    frame: u64,
    at: usize,
    end: usize,
) -> Result<Summary, AllocError>
    requires passed { ArePassed rows.now options.now }
    requires start { at ≤ end }
    requires inside { end ≤ length rows.now }
    requires short { length rows.now < 10000 }
    ensures lawful { IfOk result (IsLawful (options_seen rows.now options.now) rows.now) }
    ensures few { IfOk result (λ m. m.rows < 10000) }
{
    let mut tape = Tape::new(alloc);
    let fault = read_frame(&mut tape, rows, frame, at, end)?;
    let mut marks = Marks::new(alloc);
    summarise_tape(alloc, rows, options, &tape, fault, &mut marks)
}

// A block of these rows.
fn block_of(
    alloc: Global,
    rows: &[u8],
    options: &Options,
    frame: u64,
    at: usize,
    end: usize,
) -> Result<Block, AllocError>
    requires passed { ArePassed rows.now options.now }
    requires start { at ≤ end }
    requires inside { end ≤ length rows.now }
    requires short { length rows.now < 10000 }
    ensures lawful { IfOk result (λ b. AreLawful (options_seen rows.now options.now) rows.now b.leaves.items) }
    ensures bounded { IfOk result (λ b. IsBounded (options_seen rows.now options.now) b.leaves.items) }
    ensures few { IfOk result (λ b. all_rows b.leaves.items < 10000) }
{
    let summary = summary_of(alloc, rows, options, frame, at, end)?;
    Block::of(alloc, rows, options, summary)
}

// Frames 2 and 3, from these places on, as a block of two.
fn both_of(
    alloc: Global,
    rows: &[u8],
    options: &Options,
    start: usize,
    middle: usize,
) -> Result<Block, AllocError>
    requires passed { ArePassed rows.now options.now }
    requires start { start ≤ middle }
    requires inside { middle ≤ length rows.now }
    requires short { length rows.now < 10000 }
    ensures { IfOk result (λ b. AreLawful (options_seen rows.now options.now) rows.now b.leaves.items) }
{
    let first = block_of(alloc, rows, options, 2, start, middle)?;
    let second = block_of(alloc, rows, options, 3, middle, rows.len())?;
    Block::both(alloc, rows, options, &first, &second)
}

// The same as a block of one summary.
fn flat_of(
    alloc: Global,
    rows: &[u8],
    options: &Options,
    start: usize,
    middle: usize,
) -> Result<Block, AllocError>
    requires passed { ArePassed rows.now options.now }
    requires start { start ≤ middle }
    requires inside { middle ≤ length rows.now }
    requires short { length rows.now < 10000 }
    ensures { IfOk result (λ b. AreLawful (options_seen rows.now options.now) rows.now b.leaves.items) }
{
    let first = summary_of(alloc, rows, options, 2, start, middle)?;
    let second = summary_of(alloc, rows, options, 3, middle, rows.len())?;
    let both = compose(alloc, rows, &first, &second)?;
    Block::of(alloc, rows, options, both)
}

// What comes of the opening state over frame 1, up to a place, and then over a block.
fn outcome(
    alloc: Global,
    rows: &[u8],
    options: &Options,
    start: usize,
    block: &Block,
) -> Result<Outcome, AllocError>
    requires passed { ArePassed rows.now options.now }
    requires inside { start ≤ length rows.now }
    requires short { length rows.now < 10000 }
    requires lawful { AreLawful (options_seen rows.now options.now) rows.now block.now.leaves.items }
    ensures { IfOk result (HasAfter rows.now options.now) }
{
    let mut state = State::opening(alloc, rows, options)?;
    let first = block_of(alloc, rows, options, 1, 0, start)?;
    match first.apply_in(alloc, rows, &mut state) {
        Ok(()) => {}
        Err(Halt::Fault(fault)) => return Ok(Outcome::Faulted(fault)),
        Err(Halt::NoMemory) => return Err(AllocError),
    }
    match block.apply_in(alloc, rows, &mut state) {
        Ok(()) => Ok(Outcome::After(state)),
        Err(Halt::Fault(fault)) => Ok(Outcome::Faulted(fault)),
        Err(Halt::NoMemory) => Err(AllocError),
    }
}

// A slot's text, empty where it isn't filled.
fn text_at<'a>(rows: &'a [u8], slots: &[Extent], id: usize) -> &'a [u8]
    requires { AreSound rows.now slots.now }
{
    if id >= slots.len() {
        return b"";
    }
    let slot = slots[id];
    if slot.is_filled() {
        slot.text(rows)
    } else {
        b""
    }
}

// The name of an IRI.
fn name_of<'a>(rows: &'a [u8], term: &Option<Known>) -> &'a [u8]
    requires { HasMaybe rows.now term.now }
{
    match term {
        Some(Known::Iri { name, .. }) => name.text(rows),
        _ => b"",
    }
}

// The names of the first four slots and of the last subject; or the fault.
fn found<'a>(
    rows: &'a [u8],
    options: &Options,
    outcome: &Outcome,
) -> ([&'a [u8]; 4], &'a [u8], Option<Fault>)
    requires { HasAfter rows.now options.now outcome.now }
{
    match outcome {
        Outcome::After(state) => {
            let names = &state.tables.names;
            let first = [
                text_at(rows, names, 1),
                text_at(rows, names, 2),
                text_at(rows, names, 3),
                text_at(rows, names, 4),
            ];
            (first, name_of(rows, &state.subject), None)
        }
        Outcome::Faulted(fault) => ([b"", b"", b"", b""], b"", Some(*fault)),
    }
}

// Name p of id 2; and then names x of the next id, y of id 3 and z of the one after it.
const ENTRIES: &[u8] = b"\
    \x0A\x07\x4A\x05\x08\x02\x12\x01p\
    \x0A\x05\x4A\x03\x12\x01x\
    \x0A\x07\x4A\x05\x08\x03\x12\x01y\
    \x0A\x05\x4A\x03\x12\x01z";

// A triple of blank nodes, one that repeats all three, and a quad.
const UNSET: &[u8] = b"\
    \x0A\x0B\x12\x09\x12\x01a\x32\x01b\x52\x01c\
    \x0A\x02\x12\0\
    \x0A\x02\x1A\0";

// Name a, and a triple of it; name b in its slot, and a triple that repeats the subject.
const REWRITTEN: &[u8] = b"\
    \x0A\x05\x4A\x03\x12\x01a\
    \x0A\x0A\x12\x08\x0A\0\x32\x01p\x52\x01o\
    \x0A\x07\x4A\x05\x08\x01\x12\x01b\
    \x0A\x05\x12\x03\x32\x01q";

fn fault(frame: u64, row: u32, kind: Kind) -> Option<Fault> {
    let place = Place { frame, row };
    Some(Fault { place, kind })
}

#[test]
fn both_do_what_each_does(rt: HostRuntime) -> Result<(), Fail> {
    let alloc = rt.alloc();
    let none: [&[u8]; 4] = [b"", b"", b"", b""];
    let wrong_row = fault(3, 1, Kind::WrongRow);
    let cases: [(&[u8], usize, usize, [&[u8]; 4], &[u8], Option<Fault>); 4] = [
        (ENTRIES, 0, 9, [b"", b"p", b"y", b"z"], b"", None),
        (&UNSET[13..], 0, 4, none, b"", fault(2, 1, Kind::NoTerm)),
        (UNSET, 13, 17, none, b"", wrong_row),
        (REWRITTEN, 0, 19, [b"b", b"", b"", b""], b"a", None),
    ];
    let options = options(4);
    for (rows, start, middle, names, subject, fault) in cases {
        assert!(rt; start <= middle && middle <= rows.len() && rows.len() < 10000);
        let wanted = (names, subject, fault);
        let both = both_of(alloc, rows, &options, start, middle)?;
        assert_eq!(rt; both.leaves.len(), 2);
        let after = outcome(alloc, rows, &options, start, &both)?;
        assert_eq!(rt; found(rows, &options, &after), wanted);
        let flat = flat_of(alloc, rows, &options, start, middle)?;
        assert_eq!(rt; flat.leaves.len(), 1);
        let after = outcome(alloc, rows, &options, start, &flat)?;
        assert_eq!(rt; found(rows, &options, &after), wanted);
    }
    Ok(())
}

// So many names of id 1, of which the last is another one.
fn names_of_one_slot(alloc: Global, count: usize) -> Result<Vec<u8>, AllocError> {
    let mut rows = Vec::new(alloc);
    for _ in 1..count {
        rows.extend_from_slice(b"\x0A\x07\x4A\x05\x08\x01\x12\x01a")?;
    }
    rows.extend_from_slice(b"\x0A\x07\x4A\x05\x08\x01\x12\x01z")?;
    Ok(rows)
}

#[test]
fn a_block_that_is_too_large_is_one_summary(rt: HostRuntime) -> Result<(), Fail> {
    let alloc = rt.alloc();
    let options = options(1);
    let made = names_of_one_slot(alloc, 1025)?;
    let rows = made.as_slice();
    for (start, leaves) in [(9, 2), (0, 1)] {
        assert!(rt; start <= 27 && 27 <= rows.len() && rows.len() < 10000);
        let both = both_of(alloc, rows, &options, start, 27)?;
        assert_eq!(rt; both.leaves.len(), leaves);
        let after = outcome(alloc, rows, &options, 0, &both)?;
        let names: [&[u8]; 4] = [b"z", b"", b"", b""];
        let subject: &[u8] = b"";
        assert_eq!(rt; found(rows, &options, &after), (names, subject, None));
    }
    Ok(())
}

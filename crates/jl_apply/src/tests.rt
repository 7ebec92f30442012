ghost use Rattle.std.specs.Prelude.{◌≡◌, ◌<◌, ◌≤◌, ℕ, List, length, IfOk};
ghost use Rattle.jl_rows.specs.Heads.{ArePassed};
ghost use Rattle.jl_rows.specs.Seen.{options_seen};
ghost use Rattle.jl_state.specs.Extents.{AreSound};
ghost use Rattle.jl_state.specs.KnownTerms.{HasKnown};
ghost use Rattle.jl_state.specs.Lawful.{state_seen, HasMaybe, IsLawful};
ghost use Rattle.jl_sym_laws.specs.Staying.{IsSettled};
ghost use Rattle.jl_sym.specs.Lawful as sums;
ghost use Rattle.jl_apply.specs.Applying.{HasAfter};

use crate::{Halt, Outcome, apply, apply_in};
use jl_base::{Fault, Kind, Place, Span};
use jl_rows::{GRAPHS, Options, TRIPLES};
use jl_state::{Extent, Known, State};
use jl_sym::{Marks, Summary, summarise_tape};
use jl_tape::{Tape, read_frame};
use std::alloc::{AllocError, Global};
use std::process::Abort;
use std::test::Fail;

// Options of this physical type, with tables of eight.
fn options(physical: u32) -> Options
    requires { (0 < physical) × (physical ≤ 3) }
    ensures { (bytes : List ℕ) → ArePassed bytes result }
{
    Options {
        stream_name: Span { at: 0, len: 0 },
        physical,
        generalized: false,
        star: false,
        names: 8,
        prefixes: 8,
        datatypes: 8,
        logical: 0,
        version: 1,
        strict: false,
    }
}

// The state before the first row.
fn opening(alloc: Global, rows: &[u8], options: &Options) -> Result<State, AllocError>
    requires { ArePassed rows.now options.now }
    ensures lawful { IfOk result (IsLawful rows.now) }
    ensures settled { IfOk result (λ s. IsSettled (options_seen rows.now options.now) (state_seen rows.now s)) }
    ensures options { IfOk result (λ s. s.options ≡ options.now) }
{
    State::opening(alloc, rows, options)
}

// The summary of the rows from a place up to another one, as frame 2.
fn summary_of(
    alloc: Global,
    rows: &[u8],
    options: &Options,
    at: usize,
    end: usize,
) -> Result<Summary, AllocError>
    requires passed { ArePassed rows.now options.now }
    requires start { at ≤ end }
    requires inside { end ≤ length rows.now }
    requires short { length rows.now < 1000 }
    ensures { IfOk result (sums.IsLawful (options_seen rows.now options.now) rows.now) }
{
    let mut tape = Tape::new(alloc);
    let fault = read_frame(&mut tape, rows, 2, at, end)?;
    let mut marks = Marks::new(alloc);
    summarise_tape(alloc, rows, options, &tape, fault, &mut marks)
}

// What comes of the opening state over the rows before a place, in place, and then over the others, as a copy.
fn outcome(
    alloc: Global,
    rows: &[u8],
    options: &Options,
    middle: usize,
) -> Result<Outcome, AllocError>
    requires passed { ArePassed rows.now options.now }
    requires inside { middle ≤ length rows.now }
    requires short { length rows.now < 1000 }
    ensures { IfOk result (HasAfter rows.now options.now) }
{
    let mut state = opening(alloc, rows, options)?;
    let summary = summary_of(alloc, rows, options, 0, middle)?;
    match apply_in(alloc, &summary, rows, &mut state) {
        Ok(()) => {}
        Err(Halt::Fault(fault)) => return Ok(Outcome::Faulted(fault)),
        Err(Halt::NoMemory) => return Err(AllocError),
    }
    let summary = summary_of(alloc, rows, options, middle, rows.len())?;
    apply(alloc, &summary, rows, &state)
}

// A slot's text, empty where it isn't filled.
fn text_at<'a>(rows: &'a [u8], slots: &[Extent], id: usize) -> &'a [u8]
    requires { AreSound rows.now slots.now }
{
    if id >= slots.len() {
        return b"";
    }
    let slot = slots[id];
    if slot.is_filled() {
        slot.text(rows)
    } else {
        b""
    }
}

// The first four names and the id of the last one.
fn names_of<'a>(rows: &'a [u8], options: &Options, outcome: &Outcome) -> ([&'a [u8]; 4], u64)
    requires { HasAfter rows.now options.now outcome.now }
{
    match outcome {
        Outcome::After(state) => {
            let names = &state.tables.names;
            (
                [
                    text_at(rows, names, 1),
                    text_at(rows, names, 2),
                    text_at(rows, names, 3),
                    text_at(rows, names, 4),
                ],
                state.name_entry,
            )
        }
        Outcome::Faulted(_) => ([b"", b"", b"", b""], 0),
    }
}

// Names x of the next id, y of id 3 and z of the one after it; before them nothing, or p of id 2.
const NAMES: &[u8] = b"\
    \x0A\x05\x4A\x03\x12\x01x\
    \x0A\x07\x4A\x05\x08\x03\x12\x01y\
    \x0A\x05\x4A\x03\x12\x01z";

const NAMES_AFTER_2: &[u8] = b"\
    \x0A\x07\x4A\x05\x08\x02\x12\x01p\
    \x0A\x05\x4A\x03\x12\x01x\
    \x0A\x07\x4A\x05\x08\x03\x12\x01y\
    \x0A\x05\x4A\x03\x12\x01z";

#[test]
fn implied_ids_count_on_from_the_state(rt: HostRuntime) -> Result<(), Fail> {
    let alloc = rt.alloc();
    let cases: [(&[u8], usize, [&[u8]; 4]); 2] = [
        (NAMES, 0, [b"x", b"", b"y", b"z"]),
        (NAMES_AFTER_2, 9, [b"", b"p", b"y", b"z"]),
    ];
    for (rows, middle, wanted) in cases {
        assert!(rt; middle <= rows.len() && rows.len() < 1000);
        let options = options(TRIPLES);
        let found = outcome(alloc, rows, &options, middle)?;
        assert_eq!(rt; names_of(rows, &options, &found), (wanted, 4));
    }
    Ok(())
}

fn fault_of(outcome: &Outcome) -> Option<Fault> {
    match outcome {
        Outcome::After(_) => None,
        Outcome::Faulted(fault) => Some(*fault),
    }
}

// Two names, after one of id 8.
const NAMES_AFTER_8: &[u8] = b"\
    \x0A\x07\x4A\x05\x08\x08\x12\x01q\
    \x0A\x05\x4A\x03\x12\x01x\
    \x0A\x05\x4A\x03\x12\x01y";

// The last terms again, of which there are none, and a name of id 9.
const NOTHING_TO_REPEAT: &[u8] = b"\
    \x0A\x02\x12\0\
    \x0A\x07\x4A\x05\x08\x09\x12\x01a";

// A name, a triple of it, and one of name 2.
const NO_SECOND_NAME: &[u8] = b"\
    \x0A\x05\x4A\x03\x12\x01a\
    \x0A\x0D\x12\x0B\x0A\x02\x10\x01\x2A\x02\x10\x01\x52\x01b\
    \x0A\x06\x12\x04\x0A\x02\x10\x02";

// A triple of name 1, and that name.
const NAME_TOO_LATE: &[u8] = b"\
    \x0A\x0D\x12\x0B\x0A\x02\x10\x01\x2A\x02\x10\x01\x52\x01b\
    \x0A\x05\x4A\x03\x12\x01a";

const GRAPH_TWICE: &[u8] = b"\x0A\x04\x22\x02\x1A\0\x0A\x04\x22\x02\x1A\0";

#[test]
fn the_first_fault_is_the_one_answered(rt: HostRuntime) -> Result<(), Fail> {
    let alloc = rt.alloc();
    let cases: [(u32, &[u8], usize, u32, Kind); 6] = [
        (TRIPLES, NAMES_AFTER_8, 9, 1, Kind::BadEntry),
        (TRIPLES, NOTHING_TO_REPEAT, 0, 1, Kind::NoTerm),
        (TRIPLES, NO_SECOND_NAME, 0, 3, Kind::NoEntry),
        (TRIPLES, NAME_TOO_LATE, 0, 1, Kind::NoEntry),
        (GRAPHS, b"\x0A\x02\x2A\0", 0, 1, Kind::NoGraph),
        (GRAPHS, GRAPH_TWICE, 6, 1, Kind::GraphOpen),
    ];
    for (physical, rows, middle, row, kind) in cases {
        assert!(rt; physical == TRIPLES || physical == GRAPHS);
        assert!(rt; middle <= rows.len() && rows.len() < 1000);
        let found = outcome(alloc, rows, &options(physical), middle)?;
        let place = Place { frame: 2, row };
        assert_eq!(rt; fault_of(&found), Some(Fault { place, kind }));
    }
    Ok(())
}

// The name of an IRI.
fn name_in<'a>(rows: &'a [u8], term: &Known) -> &'a [u8]
    requires { HasKnown rows.now term.now }
{
    match term {
        Known::Iri { name, .. } => name.text(rows),
        _ => b"",
    }
}

// The name of an IRI, or of the subject in a triple term.
fn first_name_in<'a>(rows: &'a [u8], term: &Known) -> &'a [u8]
    requires { HasKnown rows.now term.now }
{
    match term {
        Known::Triple(three) => name_in(rows, &three.get().s),
        _ => name_in(rows, term),
    }
}

fn first_name<'a>(rows: &'a [u8], term: &Option<Known>) -> &'a [u8]
    requires { HasMaybe rows.now term.now }
{
    match term {
        Some(term) => first_name_in(rows, term),
        None => b"",
    }
}

// The names of the last subject and object, and the first name's slot.
fn terms_of<'a>(
    rows: &'a [u8],
    options: &Options,
    outcome: &Outcome,
) -> (&'a [u8], &'a [u8], &'a [u8])
    requires { HasAfter rows.now options.now outcome.now }
{
    match outcome {
        Outcome::After(state) => (
            first_name(rows, &state.subject),
            first_name(rows, &state.object),
            text_at(rows, &state.tables.names, 1),
        ),
        Outcome::Faulted(_) => (b"", b"", b""),
    }
}

// Name a, a triple of it that has a triple term of it as its object, name z in its slot, and the same triple again.
const TERMS: &[u8] = b"\
    \x0A\x05\x4A\x03\x12\x01a\
    \x0A\x17\x12\x15\x0A\x02\x10\x01\x2A\x02\x10\x01\x62\x0B\x0A\x02\x10\x01\x2A\x02\x10\x01\x52\x01b\
    \x0A\x07\x4A\x05\x08\x01\x12\x01z\
    \x0A\x02\x12\0";

#[test]
fn terms_keep_their_texts(rt: HostRuntime) -> Result<(), Fail> {
    let alloc = rt.alloc();
    let cases: [(usize, usize, &[u8]); 4] = [
        (0, 32, b"a"),
        (0, 45, b"z"),
        (32, 45, b"z"),
        (41, 45, b"z"),
    ];
    for (middle, end, slot) in cases {
        assert!(rt; end <= TERMS.len());
        let rows = &TERMS[..end];
        assert!(rt; middle <= rows.len() && rows.len() < 1000);
        let options = options(TRIPLES);
        let found = outcome(alloc, rows, &options, middle)?;
        let wanted: (&[u8], &[u8], &[u8]) = (b"a", b"a", slot);
        assert_eq!(rt; terms_of(rows, &options, &found), wanted);
    }
    Ok(())
}

// Whether a graph is open, where there is a state.
fn is_in_graph(outcome: &Outcome) -> Option<bool> {
    match outcome {
        Outcome::After(state) => Some(state.open_graph.is_some()),
        Outcome::Faulted(_) => None,
    }
}

// The default graph is started; a triple stands in it; it is ended.
const GRAPH: &[u8] = b"\
    \x0A\x04\x22\x02\x1A\0\
    \x0A\x0B\x12\x09\x12\x01a\x32\x01b\x52\x01c\
    \x0A\x02\x2A\0";

#[test]
fn graphs_are_left_open_or_closed(rt: HostRuntime) -> Result<(), Fail> {
    let alloc = rt.alloc();
    let cases = [(0, 6, true), (6, 19, true), (0, 23, false), (6, 23, false)];
    for (middle, end, open) in cases {
        assert!(rt; end <= GRAPH.len());
        let rows = &GRAPH[..end];
        assert!(rt; middle <= rows.len() && rows.len() < 1000);
        let found = outcome(alloc, rows, &options(GRAPHS), middle)?;
        assert_eq!(rt; is_in_graph(&found), Some(open));
    }
    Ok(())
}

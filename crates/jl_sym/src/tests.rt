ghost use Rattle.std.specs.Prelude.{◌≡◌, ◌<◌, ◌≤◌};

use crate::{
    Demand, Kept, Left, Marks, Need, Refs, RelativeId, Steps, Summary, summarise, summarise_tape,
};
use jl_base::{Fault, Kind, Place, Run, Space, Span};
use jl_frames::index;
use jl_rows::{GRAPHS, Head, Options, QUADS, RawIri, RawTerm, TRIPLES, Table, head};
use jl_state::Position;
use jl_tape::{Tape, read_frame};
use std::alloc::Global;
use std::marker::Brand;
use std::process::Abort;
use std::sync::ledger::{Blank, Ledger};
use std::test::Fail;

// The summary of these rows, as frame 2 of a file of this physical type with tables of eight.
fn summary_of(
    rt: &impl Abort,
    alloc: Global,
    physical: u32,
    strict: bool,
    rows: &[u8],
) -> Result<Summary, Fail>
    requires { (0 < physical) × (physical ≤ 3) }
{
    assert!(rt; rows.len() < 1000);
    let options = Options {
        stream_name: Span { at: 0, len: 0 },
        physical,
        generalized: false,
        star: false,
        names: 8,
        prefixes: 8,
        datatypes: 8,
        logical: 0,
        version: 1,
        strict,
    };
    let mut tape = Tape::new(alloc);
    let fault = read_frame(&mut tape, rows, 2, 0, rows.len())?;
    let mut marks = Marks::new(alloc);
    let summary = summarise_tape(alloc, rows, &options, &tape, fault, &mut marks)?;
    Ok(summary)
}

// A demand of a row of frame 2, which has so many rows of the run before it.
fn demand(moment: u32, kind: Kind, need: Need) -> Demand
    requires { moment < 1000 }
{
    let place = Place {
        frame: 2,
        row: moment + 1,
    };
    Demand {
        moment,
        fault: Fault { place, kind },
        need,
    }
}

fn demands_are(rt: &impl Abort, summary: &Summary, wanted: &[Demand]) {
    assert_eq!(rt; summary.demands.len(), wanted.len());
    for i in 0..wanted.len() {
        assert_eq!(rt; summary.demands[i], wanted[i]);
    }
}

fn filled(moment: u32, table: Table, id: RelativeId) -> Demand
    requires { moment < 1000 }
{
    demand(moment, Kind::NoEntry, Need::Filled(table, id))
}

fn given(n: u32) -> RelativeId {
    RelativeId::Given(n)
}

fn after(k: u32) -> RelativeId {
    RelativeId::After(k)
}

// A term that was left by a row, as an IRI of these ids.
fn left(moment: u32, prefix: RelativeId, name: RelativeId, iri: RawIri) -> Left {
    Left::Set {
        moment,
        before: Refs { prefix, name },
        term: RawTerm::Iri(iri),
    }
}

// Names x of the next id, y of id 3 and z of the one after it.
const ENTRIES: &[u8] = b"\
    \x0A\x05\x4A\x03\x12\x01x\
    \x0A\x07\x4A\x05\x08\x03\x12\x01y\
    \x0A\x05\x4A\x03\x12\x01z";

#[test]
fn implied_ids_count_on_from_the_incoming_one(rt: HostRuntime) -> Result<(), Fail> {
    let alloc = rt.alloc();
    let summary = summary_of(&rt, alloc, TRIPLES, false, ENTRIES)?;
    assert_eq!(rt; summary.rows, 3);
    assert_eq!(rt; summary.writes.len(), 3);
    let wanted = [after(1), given(3), given(4)];
    for i in 0..3 {
        assert_eq!(rt; summary.writes[i].id, wanted[i]);
        assert_eq!(rt; summary.writes[i].moment as usize, i);
    }
    assert_eq!(rt; summary.name_entry, given(4));
    assert_eq!(rt; summary.prefix_entry, after(0));
    let fits = Need::Fits(Table::Name, after(1));
    demands_are(&rt, &summary, &[demand(0, Kind::BadEntry, fits)]);
    Ok(())
}

// Triples of i(0,0) i(0,0) i(0,1), and of i(0,0) _ i(0,1).
const IRIS: &[u8] = b"\
    \x0A\x0A\x12\x08\x0A\0\x2A\0\x4A\x02\x10\x01\
    \x0A\x08\x12\x06\x0A\0\x4A\x02\x10\x01";

#[test]
fn a_slot_is_asked_for_once(rt: HostRuntime) -> Result<(), Fail> {
    let alloc = rt.alloc();
    let summary = summary_of(&rt, alloc, TRIPLES, false, IRIS)?;
    demands_are(
        &rt,
        &summary,
        &[
            filled(0, Table::Prefix, after(0)),
            filled(0, Table::Name, after(1)),
            filled(0, Table::Name, after(2)),
            filled(0, Table::Name, given(1)),
            filled(1, Table::Name, given(2)),
        ],
    );
    let next = RawIri { prefix: 0, name: 0 };
    assert_eq!(rt; summary.subject, left(1, after(0), given(1), next));
    assert_eq!(rt; summary.predicate, left(0, after(0), after(1), next));
    assert_eq!(rt; summary.ids.name, given(1));
    Ok(())
}

// Names x of the next id and y of id 3; a triple of i(0,0) i(0,3) i(0,1).
const WRITTEN: &[u8] = b"\
    \x0A\x05\x4A\x03\x12\x01x\
    \x0A\x07\x4A\x05\x08\x03\x12\x01y\
    \x0A\x0C\x12\x0A\x0A\0\x2A\x02\x10\x03\x4A\x02\x10\x01";

#[test]
fn a_slot_that_was_written_is_not_asked_for(rt: HostRuntime) -> Result<(), Fail> {
    let alloc = rt.alloc();
    let summary = summary_of(&rt, alloc, TRIPLES, false, WRITTEN)?;
    let fits = Need::Fits(Table::Name, after(1));
    demands_are(
        &rt,
        &summary,
        &[
            demand(0, Kind::BadEntry, fits),
            filled(2, Table::Prefix, after(0)),
            filled(2, Table::Name, after(1)),
            filled(2, Table::Name, given(1)),
        ],
    );
    Ok(())
}

fn has(x: Position) -> Demand {
    demand(0, Kind::NoTerm, Need::Has(Kept::LastAt(x)))
}

#[test]
fn a_last_term_is_asked_for_once(rt: HostRuntime) -> Result<(), Fail> {
    let alloc = rt.alloc();
    let summary = summary_of(&rt, alloc, TRIPLES, false, b"\x0A\x02\x12\0\x0A\x02\x12\0")?;
    let wanted = [
        has(Position::Subject),
        has(Position::Predicate),
        has(Position::Object),
    ];
    demands_are(&rt, &summary, &wanted);
    assert_eq!(rt; summary.rows, 2);
    assert_eq!(rt; summary.subject, Left::Incoming);
    Ok(())
}

#[test]
fn a_graph_that_was_ended_is_not_ended_again(rt: HostRuntime) -> Result<(), Fail> {
    let alloc = rt.alloc();
    let summary = summary_of(&rt, alloc, GRAPHS, false, b"\x0A\x02\x2A\0\x0A\x02\x2A\0")?;
    demands_are(
        &rt,
        &summary,
        &[
            demand(0, Kind::NoGraph, Need::Has(Kept::OpenGraph)),
            demand(1, Kind::NoGraph, Need::Never),
        ],
    );
    assert_eq!(rt; summary.open_graph, Left::Cleared);
    Ok(())
}

// The default graph is started; a triple of blank nodes; the graph is started again.
const STARTS: &[u8] = b"\
    \x0A\x04\x22\x02\x1A\0\
    \x0A\x0B\x12\x09\x12\x01a\x32\x01b\x52\x01c\
    \x0A\x04\x22\x02\x1A\0";

#[test]
fn a_graph_is_started_outside_of_others(rt: HostRuntime) -> Result<(), Fail> {
    let alloc = rt.alloc();
    let summary = summary_of(&rt, alloc, GRAPHS, false, STARTS)?;
    demands_are(
        &rt,
        &summary,
        &[
            demand(0, Kind::GraphOpen, Need::Lacks(Kept::OpenGraph)),
            demand(2, Kind::GraphOpen, Need::Never),
        ],
    );
    assert_eq!(rt; summary.rows, 2);
    Ok(())
}

// A triple of blank nodes.
const BLANKS: &[u8] = b"\x0A\x0B\x12\x09\x12\x01a\x32\x01b\x52\x01c";

#[test]
fn a_blank_predicate_under_the_strict_profile(rt: HostRuntime) -> Result<(), Fail> {
    let alloc = rt.alloc();
    let summary = summary_of(&rt, alloc, TRIPLES, true, BLANKS)?;
    demands_are(&rt, &summary, &[demand(0, Kind::NotPlain, Need::Never)]);
    let summary = summary_of(&rt, alloc, TRIPLES, false, BLANKS)?;
    demands_are(&rt, &summary, &[]);
    Ok(())
}

#[test]
fn a_row_that_the_file_does_not_have(rt: HostRuntime) -> Result<(), Fail> {
    let alloc = rt.alloc();
    let summary = summary_of(&rt, alloc, QUADS, false, BLANKS)?;
    demands_are(&rt, &summary, &[demand(0, Kind::WrongRow, Need::Never)]);
    Ok(())
}

#[test]
fn a_fault_of_the_bytes_comes_after_the_rows(rt: HostRuntime) -> Result<(), Fail> {
    let alloc = rt.alloc();
    let summary = summary_of(&rt, alloc, GRAPHS, false, b"\x0A\x02\x2A\0\x0A\0")?;
    demands_are(
        &rt,
        &summary,
        &[
            demand(0, Kind::NoGraph, Need::Has(Kept::OpenGraph)),
            demand(1, Kind::EmptyRow, Need::Never),
        ],
    );
    Ok(())
}

// A file of three frames: options of triples with tables of eight, one entry, two entries.
const FILE: &[u8] = b"\
    \x0E\x0A\x0C\x0A\x0A\x10\x01\x48\x08\x50\x08\x58\x08\x78\x01\
    \x07\x0A\x05\x4A\x03\x12\x01p\
    \x0E\x0A\x05\x4A\x03\x12\x01x\x0A\x05\x4A\x03\x12\x01y";

// The summary of all frames after the first, and how many steps it took.
fn rest_of_file<L: Ledger>(
    rt: &impl Abort,
    alloc: Global,
    blank: Blank,
) -> Result<(Summary, u64), Fail>
    requires name { blank.name ≡ L.name }
    requires parts { blank.parts ≡ L.parts }
    requires some { 0 < blank.parts }
{
    let space = Space::from_bytes(alloc, FILE)?;
    let frames = index(alloc, &space)?;
    let Head::First(options, _) = head(&space) else {
        return Err(Fail::new("no options"));
    };
    assert!(rt; space.bytes().len() < 1000);
    assert_eq!(rt; frames.count(), 3);
    assert_eq!(rt; frames.first(), 1);
    let run = Run {
        lo: 15,
        hi: space.bytes().len() as u64,
        first_frame: 2,
        frames: 2,
    };
    let mut steps = Steps::<L>::new(blank);
    let summary = summarise(alloc, &space, &frames, &options, run, &mut steps)?;
    Ok((summary, steps.count()))
}

#[test]
fn a_run_ticks_once_a_frame(rt: HostRuntime) -> Result<(), Fail> {
    let (summary, steps) = rest_of_file::<Brand>(&rt, rt.alloc(), Blank::new(1))?;
    assert_eq!(rt; steps, 2);
    assert_eq!(rt; summary.rows, 3);
    assert_eq!(rt; summary.name_entry, after(3));
    Ok(())
}

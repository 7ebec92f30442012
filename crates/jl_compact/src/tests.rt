ghost use Rattle.std.specs.Prelude.{◌≡◌, ◌<◌, ℕ, List, IfOk};
ghost use Rattle.jl_rows.specs.Heads.{ArePassed};
ghost use Rattle.jl_rows.specs.Written.{StreamOptions};
ghost use Rattle.jl_sym_laws.specs.Composing.{AreWithin};
ghost use Rattle.jl_sym_laws.specs.Cutting.{AreMadeDemands, IsMade};
ghost use Rattle.jl_sym.specs.Held.{HasSummary};
ghost use Rattle.jl_sym.specs.Lawful.{IsLawful};
ghost use Rattle.jl_sym.specs.Seen.{demands_seen, summary_seen};

use crate::compacting::{compact, shrink, size};
use jl_base::{Fault, Kind, Place, Span};
use jl_rows::{Options, TRIPLES, Table};
use jl_state::Position;
use jl_sym::{Demand, Kept, Left, Marks, Need, Refs, RelativeId, Summary, summarise_tape};
use jl_tape::{Tape, read_frame};
use std::alloc::{AllocError, Global};
use std::process::Abort;
use std::test::Fail;

fn tables_of_eight() -> Options
    ensures { (bytes : List ℕ) → ArePassed bytes result }
{
    Options {
        stream_name: Span { at: 0, len: 0 },
        physical: TRIPLES,
        generalized: false,
        star: false,
        names: 8,
        prefixes: 8,
        datatypes: 8,
        logical: 0,
        version: 1,
        strict: false,
    }
}

// The summary of these rows, as frame 2 of a file with tables of eight.
fn summary_of(rt: &impl Abort, alloc: Global, rows: &[u8]) -> Result<Summary, Fail>
    ensures made { IfOk result (λ m. IsMade (summary_seen rows.now m)) }
    ensures held { IfOk result (HasSummary rows.now) }
{
    assert!(rt; rows.len() < 200_000);
    let options = tables_of_eight();
    let mut tape = Tape::new(alloc);
    let fault = read_frame(&mut tape, rows, 2, 0, rows.len())?;
    let mut marks = Marks::new(alloc);
    let summary = summarise_tape(alloc, rows, &options, &tape, fault, &mut marks)?;
    Ok(summary)
}

// Cuts and compacts, with the bytes that the rows were read from.
fn shrunk(rt: &impl Abort, alloc: Global, rows: &[u8]) -> Result<Summary, Fail> {
    let mut summary = summary_of(rt, alloc, rows)?;
    shrink(alloc, rows, &tables_of_eight(), &mut summary)?;
    Ok(summary)
}

// So many names, of the ids 1 to 8 in turn.
fn entries(alloc: Global, count: u32) -> Result<Vec<u8>, AllocError> {
    let mut rows = Vec::new(alloc);
    for i in 0..count {
        let id = (i % 8 + 1) as u8;
        rows.extend_from_slice(&[0x0A, 0x07, 0x4A, 0x05, 0x08, id, 0x12, 0x01, b'x'])?;
    }
    Ok(rows)
}

#[test]
fn a_long_run_of_few_slots_gets_small(rt: HostRuntime) -> Result<(), Fail> {
    let alloc = rt.alloc();
    let rows = entries(alloc, 10_000)?;
    let summary = summary_of(&rt, alloc, &rows)?;
    assert_eq!(rt; size(&summary).0, 10_000);
    let summary = shrunk(&rt, alloc, &rows)?;
    assert_eq!(rt; size(&summary).0, 16);
    assert_eq!(rt; size(&summary).1, 0);
    assert_eq!(rt; summary.rows, 10_000);
    for i in 0..8 {
        assert_eq!(rt; summary.writes[i].moment as usize, i);
        assert_eq!(rt; summary.writes[i + 8].moment as usize, i + 9_992);
    }
    Ok(())
}

// Names x of the next id, y of id 3 and z of the one after it; triples of i(0,0) i(0,0) i(0,1), and of i(0,0) _ i(0,1).
const FEW: &[u8] = b"\
    \x0A\x05\x4A\x03\x12\x01x\
    \x0A\x07\x4A\x05\x08\x03\x12\x01y\
    \x0A\x05\x4A\x03\x12\x01z\
    \x0A\x0A\x12\x08\x0A\0\x2A\0\x4A\x02\x10\x01\
    \x0A\x08\x12\x06\x0A\0\x4A\x02\x10\x01";

#[test]
fn what_is_needed_stays(rt: HostRuntime) -> Result<(), Fail> {
    let alloc = rt.alloc();
    let whole = summary_of(&rt, alloc, FEW)?;
    let small = shrunk(&rt, alloc, FEW)?;
    assert_eq!(rt; size(&whole).0, 3);
    assert_eq!(rt; size(&whole).1, 6);
    assert_eq!(rt; size(&small).0, 3);
    assert_eq!(rt; size(&small).1, 6);
    for i in 0..3 {
        assert_eq!(rt; small.writes[i].moment, whole.writes[i].moment);
        assert_eq!(rt; small.writes[i].id, whole.writes[i].id);
    }
    for i in 0..6 {
        assert_eq!(rt; small.demands[i], whole.demands[i]);
    }
    assert_eq!(rt; small.subject, whole.subject);
    Ok(())
}

fn demand(moment: u32, kind: Kind, need: Need) -> Demand
    requires { moment < 1000 }
    ensures moment { result.moment ≡ moment }
    ensures need { result.need ≡ need }
{
    let place = Place {
        frame: 2,
        row: moment + 1,
    };
    Demand {
        moment,
        fault: Fault { place, kind },
        need,
    }
}

const SUBJECT: Need = Need::Has(Kept::LastAt(Position::Subject));

const OBJECT: Need = Need::Has(Kept::LastAt(Position::Object));

const NINTH: Need = Need::Filled(Table::Name, RelativeId::Given(9));

// Asks twice for a subject, and then for a name that no table of eight has.
fn asked_twice(alloc: Global) -> Result<Vec<Demand>, AllocError>
    ensures made { IfOk result (λ ds. AreMadeDemands 0 (demands_seen ds.items)) }
    ensures within { IfOk result (λ ds. AreWithin 4 (demands_seen ds.items)) }
{
    Ok(Vec::from_array(
        alloc,
        [
            demand(0, Kind::NoTerm, SUBJECT),
            demand(1, Kind::NoTerm, SUBJECT),
            demand(2, Kind::NoEntry, NINTH),
            demand(3, Kind::NoTerm, OBJECT),
        ],
    )?)
}

// Four rows that do nothing but ask this.
fn asking(alloc: Global, demands: Vec<Demand>) -> Summary
    requires made { AreMadeDemands 0 (demands_seen demands.items) }
    requires within { AreWithin 4 (demands_seen demands.items) }
    ensures { (o : StreamOptions) (bytes : List ℕ) → IsLawful o bytes result }
{
    Summary {
        rows: 4,
        writes: Vec::new(alloc),
        demands,
        name_entry: RelativeId::After(0),
        prefix_entry: RelativeId::After(0),
        datatype_entry: RelativeId::After(0),
        ids: Refs {
            prefix: RelativeId::After(0),
            name: RelativeId::After(0),
        },
        subject: Left::Incoming,
        predicate: Left::Incoming,
        object: Left::Incoming,
        graph: Left::Incoming,
        open_graph: Left::Incoming,
    }
}

fn compacted(alloc: Global, demands: Vec<Demand>) -> Result<Summary, AllocError>
    requires made { AreMadeDemands 0 (demands_seen demands.items) }
    requires within { AreWithin 4 (demands_seen demands.items) }
{
    let options = tables_of_eight();
    let mut summary = asking(alloc, demands);
    compact(alloc, b"", &options, &mut summary)?;
    Ok(summary)
}

#[test]
fn a_demand_stays_once_and_what_is_never_met_ends_them(rt: HostRuntime) -> Result<(), Fail> {
    let alloc = rt.alloc();
    let summary = compacted(alloc, asked_twice(alloc)?)?;
    assert_eq!(rt; size(&summary).1, 2);
    assert_eq!(rt; summary.demands[0], demand(0, Kind::NoTerm, SUBJECT));
    assert_eq!(rt; summary.demands[1], demand(2, Kind::NoEntry, Need::Never));
    Ok(())
}

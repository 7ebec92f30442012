//! Rows resolved into items, one after another from a state.
ghost use Rattle.std.specs.Prelude.{◌≡◌, ℕ, ◌≤◌, None, IfOk, OnOk, length};
ghost use Rattle.jl_base.specs.Limits.{most_bytes};
ghost use Rattle.jl_base.specs.Results.{Reading, joined, with_front};
ghost use Rattle.jl_base.specs.declared.place.Fault as faults;
ghost use Rattle.jl_frames.specs.Index.{AreLaid};
ghost use Rattle.jl_rows.specs.Decoder.{decoded_on};
ghost use Rattle.jl_rows.specs.Files.{Placed};
ghost use Rattle.jl_rows.specs.History.{History};
ghost use Rattle.jl_rows.specs.Seen.{options_seen, row_seen, HasRow};
ghost use Rattle.jl_state.specs.Lawful.{state_seen, IsLawful};
ghost use Rattle.jl_state.specs.Running.{after_reading, run_on, settled};
ghost use Rattle.jl_state.specs.Stands.{Stands};
ghost use Rattle.jl_state.specs.Steps.{step};
ghost use Rattle.jl_tape.specs.Runs.{IsRunIn, run_rows};
ghost use Rattle.jl_tape.specs.Tapes.{HasRows, placed_seen, reading_of};
ghost use Rattle.jl_resolve.specs.Ends.{said_of, EndsAfter};
ghost use Rattle.jl_resolve.specs.Taking.{said, TakesPlaced, TakesRow};

use crate::items::{namespace, statement};
use jl_base::{Fault, Items, Run, Space};
use jl_frames::Frames;
use jl_rows::Row;
use jl_state::{State, Stated, Stop};
use jl_tape::{PlacedRow, Tape, read_run};
use std::alloc::{AllocError, Global};

/// How a run ends: with the state after it, or with its first fault.
#[derive(Debug, Drop)]
pub enum End {
    After(State),
    Faulted(Fault),
}

/// What a run says: the items of the rows before its first fault.
#[derive(Debug, Drop)]
pub struct Resolved {
    pub items: Items,
    pub end: End,
}

// One row's items.
fn take_row(
    alloc: Global,
    bytes: &[u8],
    row: &Row,
    state: &mut State,
    items: &mut Items,
) -> Result<(), Stop>
    requires lawful { IsLawful bytes.now state.old }
    requires inside { HasRow bytes.now row.now }
    requires short { length bytes.now ≤ most_bytes }
    ensures exact { TakesRow bytes.now (step (options_seen bytes.now state.old.options) (row_seen bytes.now row.now) (state_seen bytes.now state.old)) state.new items.old items.new result }
    ensures lawful { OnOk result (IsLawful bytes.now state.new) }
    ensures options { state.new.options ≡ state.old.options }
{
    match state.step(alloc, bytes, row)? {
        Stated::Nothing => {}
        Stated::Statement => items.push(statement(alloc, bytes, state)?)?,
        Stated::Namespace { name, prefix, iri } => {
            items.push(namespace(alloc, bytes, name, prefix, iri)?)?;
        }
    }
    Ok(())
}

// One row at its place: its fault, or none.
fn take_placed(
    alloc: Global,
    bytes: &[u8],
    placed: &PlacedRow,
    state: &mut State,
    items: &mut Items,
) -> Result<Option<Fault>, AllocError>
    requires lawful { IsLawful bytes.now state.old }
    requires inside { HasRow bytes.now placed.now.row }
    requires short { length bytes.now ≤ most_bytes }
    ensures said { IfOk result (TakesPlaced bytes.now placed.now state.old state.new items.old items.new) }
    ensures lawful { IfOk result (λ found. found ≡ None → IsLawful bytes.now state.new) }
    ensures options { state.new.options ≡ state.old.options }
{
    match take_row(alloc, bytes, &placed.row, state, items) {
        Ok(()) => Ok(None),
        Err(Stop::Fault(kind)) => Ok(Some(Fault {
            place: placed.place,
            kind,
        })),
        Err(Stop::NoMemory) => Err(AllocError),
    }
}

/// Reads the rows of a tape, and the fault that ends them, from a state, which is brought along: their items come after
/// those that are here, up to the first fault, which is answered. After a fault, and where memory isn't found, the state
/// is of no use; where it isn't found, some of the items stand here. Each item takes its texts.
pub fn resolve_tape(
    alloc: Global,
    bytes: &[u8],
    tape: &Tape,
    fault: Option<Fault>,
    state: &mut State,
    items: &mut Items,
) -> Result<Option<Fault>, AllocError>
    requires lawful { IsLawful bytes.now state.old }
    requires rows { HasRows bytes.now tape.now }
    requires short { length bytes.now ≤ most_bytes }
    ensures said { IfOk result (λ found. said items.new found ≡ joined (said items.old None) (run_on (options_seen bytes.now state.old.options) (state_seen bytes.now state.old) (reading_of bytes.now tape.now fault))) }
    ensures state { IfOk result (λ found. after_reading (options_seen bytes.now state.old.options) (state_seen bytes.now state.old) (reading_of bytes.now tape.now fault) ≡ settled found (state_seen bytes.now state.new)) }
    ensures lawful { IfOk result (λ found. found ≡ None → IsLawful bytes.now state.new) }
    ensures options { state.new.options ≡ state.old.options }
{
    for i in 0..tape.len() {
        if let Some(found) = take_placed(alloc, bytes, tape.at(i), state, items)? {
            return Ok(Some(found));
        }
    }
    Ok(fault)
}

// The items of a tape's rows, with the state after them.
fn resolve_from(
    alloc: Global,
    bytes: &[u8],
    tape: &Tape,
    fault: Option<Fault>,
    before: State,
) -> Result<Resolved, AllocError>
    requires lawful { IsLawful bytes.now before }
    requires rows { HasRows bytes.now tape.now }
    requires short { length bytes.now ≤ most_bytes }
    ensures said { IfOk result (λ r. said_of r ≡ run_on (options_seen bytes.now before.options) (state_seen bytes.now before) (reading_of bytes.now tape.now fault)) }
    ensures end { IfOk result (λ r. EndsAfter bytes.now before (reading_of bytes.now tape.now fault) r.end) }
{
    let mut state = before;
    let mut items = Items::new(alloc);
    match resolve_tape(alloc, bytes, tape, fault, &mut state, &mut items)? {
        Some(fault) => Ok(Resolved {
            items,
            end: End::Faulted(fault),
        }),
        None => Ok(Resolved {
            items,
            end: End::After(state),
        }),
    }
}

/// Reads the rows of a run from the state before it, of which a copy is taken. Takes a tape of the run's rows besides.
pub fn resolve(
    alloc: Global,
    space: &Space,
    frames: &Frames,
    run: Run,
    state: &State,
) -> Result<Resolved, AllocError>
    requires short { length space.now ≤ most_bytes }
    requires laid { (last : ℕ) × AreLaid frames.now.lo frames.now.bodies last × (last ≤ length space.now) }
    requires run { IsRunIn frames.now run }
    requires lawful { IsLawful space.now state.now }
    ensures said { IfOk result (λ r. said_of r ≡ run_on (options_seen space.now state.now.options) (state_seen space.now state.now) (run_rows space.now frames.now run)) }
    ensures decodes { IfOk result (λ r. (H : History) → Stands (options_seen space.now state.now.options) (state_seen space.now state.now) H → said_of r ≡ decoded_on (options_seen space.now state.now.options) H (run_rows space.now frames.now run)) }
    ensures end { IfOk result (λ r. EndsAfter space.now state.now (run_rows space.now frames.now run) r.end) }
{
    let bytes = space.bytes();
    let mut tape = Tape::new(alloc);
    let fault = read_run(&mut tape, bytes, frames, run)?;
    let copy = state.copy(alloc)?;
    resolve_from(alloc, bytes, &tape, fault, copy)
}

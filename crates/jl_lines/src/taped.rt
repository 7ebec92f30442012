//! The decoding of rows that were read before, from a tape.
ghost use Rattle.std.specs.Prelude.{◌≡◌, ◌+◌, ◌<◌, ◌≤◌, ◌^◌, Ok, OnOk, length};
ghost use Rattle.jl_base.specs.Limits.{most_bytes};
ghost use Rattle.jl_base.specs.Results.{Reading, joined, with_front};
ghost use Rattle.jl_base.specs.declared.place.Fault as faults;
ghost use Rattle.jl_rows.specs.Files.{Placed};
ghost use Rattle.jl_rows.specs.Seen.{options_seen, row_seen, HasRow};
ghost use Rattle.jl_state.specs.Lawful.{state_seen};
ghost use Rattle.jl_state.specs.Running.{after_reading, state_of};
ghost use Rattle.jl_state.specs.Steps.{step};
ghost use Rattle.jl_tape.specs.Tapes.{HasRows, placed_seen, reading_of};
ghost use Rattle.jl_lines.specs.Kept.{Keeps};
ghost use Rattle.jl_lines.specs.Going.{counted, outcome};
ghost use Rattle.jl_lines.specs.Taped.{Leads, LeadsAt, refusal};

use crate::decoding::{Decoding, Refused};
use jl_base::{Fault, Place};
use jl_state::Stop;
use jl_tape::{PlacedRow, Tape};
use std::alloc::Global;

// Why the row at a place isn't taken. It stands apart, so that the loop over rows keeps no room for it.
#[inline(never)]
fn refused(place: Place, stop: Stop) -> Refused
    ensures { result ≡ refusal place stop }
{
    match stop {
        Stop::Fault(kind) => Refused::Malformed(Fault { place, kind }),
        Stop::NoMemory => Refused::NoMemory,
    }
}

impl Decoding {
    // One row at its place. It is passed by where it lies, since it is large.
    #[inline(always)]
    fn placed_row(&mut self, alloc: Global, bytes: &[u8], placed: &PlacedRow) -> Result<(), Stop>
        requires kept { Keeps bytes.now self.old }
        requires inside { HasRow bytes.now placed.now.row }
        requires short { length bytes.now ≤ most_bytes }
        requires few { counted self.old < 2 ^ 63 }
        ensures comes { (B : Reading Placed faults.Fault) → LeadsAt placed.now.place (outcome bytes.now self.old (with_front (placed_seen bytes.now placed.now) B)) (outcome bytes.now self.new B) self.new result }
        ensures state { OnOk result (state_of (step (options_seen bytes.now self.old.state.options) (row_seen bytes.now placed.now.row) (state_seen bytes.now self.old.state)) ≡ Ok (state_seen bytes.now self.new.state)) }
        ensures few { counted self.new ≤ counted self.old + 1 }
        ensures kept { OnOk result (Keeps bytes.now self.new) }
        ensures options { self.new.state.options ≡ self.old.state.options }
        ensures writing { self.new.writing ≡ self.old.writing }
    {
        self.row(alloc, bytes, &placed.row)
    }

    /// The items of a tape's rows, and then the fault that ends them. The loop stands apart, so that it has the registers
    /// to itself whoever calls it.
    #[inline(never)]
    pub fn taped(
        &mut self,
        alloc: Global,
        bytes: &[u8],
        tape: &Tape,
        fault: Option<Fault>,
    ) -> Result<(), Refused>
        requires kept { Keeps bytes.now self.old }
        requires short { length bytes.now ≤ most_bytes }
        requires rows { HasRows bytes.now tape.now }
        requires few { counted self.old + length tape.now ≤ 2 ^ 62 }
        ensures comes { (B : Reading Placed faults.Fault) → Leads (outcome bytes.now self.old (joined (reading_of bytes.now tape.now fault) B)) (outcome bytes.now self.new B) self.new result }
        ensures state { OnOk result (after_reading (options_seen bytes.now self.old.state.options) (state_seen bytes.now self.old.state) (reading_of bytes.now tape.now fault) ≡ Ok (state_seen bytes.now self.new.state)) }
        ensures few { OnOk result (counted self.new ≤ counted self.old + length tape.now) }
        ensures kept { OnOk result (Keeps bytes.now self.new) }
        ensures options { self.new.state.options ≡ self.old.state.options }
        ensures writing { self.new.writing ≡ self.old.writing }
    {
        for i in 0..tape.len() {
            let placed = tape.at(i);
            match self.placed_row(alloc, bytes, placed) {
                Ok(()) => {}
                Err(stop) => return Err(refused(placed.place, stop)),
            }
        }
        match fault {
            Some(fault) => Err(Refused::Malformed(fault)),
            None => Ok(()),
        }
    }
}

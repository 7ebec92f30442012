//! The summary of a tape.
ghost use Rattle.std.specs.Prelude.{◌≤◌, ◌^◌, IfOk, length};
ghost use Rattle.jl_base.specs.Limits.{most_bytes};
ghost use Rattle.jl_rows.specs.Heads.{ArePassed};
ghost use Rattle.jl_rows.specs.Seen.{options_seen};
ghost use Rattle.jl_sym_laws.specs.Runs.{Summarises};
ghost use Rattle.jl_tape.specs.Tapes.{HasRows, reading_of};
ghost use Rattle.jl_sym.specs.Lawful.{IsLawful};
ghost use Rattle.jl_sym.specs.Seen.{summary_seen};
ghost use Rattle.jl_sym.specs.Sums.{SumsOn};

use crate::asker::Here;
use crate::growing::Growing;
use crate::marks::Marks;
use crate::summary::Summary;
use jl_base::Fault;
use jl_rows::Options;
use jl_state::Stop;
use jl_tape::Tape;
use std::alloc::{AllocError, Global};

/// What a tape's rows, and the fault that ends them, do to whatever state comes before them. The marks are of no use
/// afterwards but for their memory.
pub fn summarise_tape<'a>(
    alloc: Global,
    bytes: &'a [u8],
    options: &'a Options,
    tape: &'a Tape,
    fault: Option<Fault>,
    marks: &mut Marks,
) -> Result<Summary, AllocError>
    requires options { ArePassed bytes.now options.now }
    requires short { length bytes.now ≤ most_bytes }
    requires rows { HasRows bytes.now tape.now }
    requires few { length tape.now ≤ 2 ^ 30 }
    ensures sums { IfOk result (λ m. Summarises (options_seen bytes.now options.now) (reading_of bytes.now tape.now fault) (summary_seen bytes.now m)) }
    ensures acts { IfOk result (λ m. SumsOn (options_seen bytes.now options.now) (reading_of bytes.now tape.now fault) (summary_seen bytes.now m)) }
    ensures lawful { IfOk result (IsLawful (options_seen bytes.now options.now) bytes.now) }
    ensures rows { IfOk result (λ m. m.rows ≤ length tape.now) }
{
    marks.start(options)?;
    let mut growing = Growing::new(alloc, tape.len());
    for i in 0..tape.len() {
        let placed = tape.at(i);
        let here = Here {
            bytes,
            options,
            place: &placed.place,
        };
        match growing.row(&here, marks, &placed.row) {
            Ok(()) => {}
            Err(Stop::Fault(kind)) => {
                growing.refuse(
                    bytes,
                    Fault {
                        place: placed.place,
                        kind,
                    },
                )?;
                return Ok(growing.finish());
            }
            Err(Stop::NoMemory) => return Err(AllocError),
        }
    }
    match fault {
        Some(fault) => {
            growing.refuse(bytes, fault)?;
            Ok(growing.finish())
        }
        None => Ok(growing.finish()),
    }
}

//! The stages of a run, each over all runs of a file.
ghost use Rattle.std.specs.Prelude.{◌≡◌, ◌<◌, ◌≤◌, ◌+◌, ◌^◌, OnOk, length};
ghost use Rattle.jl_lines.specs.Going.{counted};
ghost use Rattle.jl_lines.specs.Kept.{Keeps};
ghost use Rattle.jl_rows.specs.Seen.{options_seen};
ghost use Rattle.jl_state.specs.Lawful as states;
ghost use Rattle.jl_sym_laws.specs.Staying.{IsSettled};
ghost use Rattle.try_summaries.specs.Given.{IsFile, IsRun};

use crate::check::opening;
use crate::runs::{Given, Room, read, run_at, summary};
use crate::words::Stage;
use jl_apply::apply_in;
use jl_base::Run;
use jl_lines::{Decoding, Writing};
use jl_state::State;
use std::alloc::{AllocError, Global};

// One run, onto its tape, and perhaps as a summary.
fn one(
    alloc: Global,
    given: &Given<'_>,
    room: &mut Room,
    run: Run,
    is_summed: bool,
) -> Result<(), AllocError>
    requires file { IsFile given.now }
    requires run { IsRun given.now.frames.now run }
{
    if is_summed {
        summary(alloc, given, room, run)?;
    } else {
        read(given, &mut room.tape, run)?;
    }
    Ok(())
}

// All runs so.
fn each(
    alloc: Global,
    given: &Given<'_>,
    room: &mut Room,
    per: u64,
    is_summed: bool,
) -> Result<(), AllocError>
    requires file { IsFile given.now }
    requires per { 0 < per }
{
    let mut before = 0;
    'by_run: while before < given.frames.count() {
        let run = run_at(given.frames, before, per);
        one(alloc, given, room, run, is_summed)?;
        before += run.frames;
    }
    Ok(())
}

// One state over all runs, by their summaries.
fn act(alloc: Global, given: &Given<'_>, room: &mut Room, per: u64) -> Result<(), AllocError>
    requires file { IsFile given.now }
    requires per { 0 < per }
{
    let mut state = opening(alloc, given)?;
    let mut before = 0;
    'by_run: while before < given.frames.count() {
        let run = run_at(given.frames, before, per);
        let next = summary(alloc, given, room, run)?;
        if apply_in(alloc, &next, given.bytes, &mut state).is_err() {
            return Err(AllocError);
        }
        before += run.frames;
    }
    Ok(())
}

// The lines of a run, from its tape. They are let go.
fn lines_of(
    alloc: Global,
    given: &Given<'_>,
    room: &mut Room,
    run: Run,
    decoding: &mut Decoding,
) -> Result<(), AllocError>
    requires file { IsFile given.now }
    requires run { IsRun given.now.frames.now run }
    requires kept { Keeps given.now.bytes.now decoding.old }
    ensures kept { OnOk result (Keeps given.now.bytes.now decoding.new) }
{
    let fault = read(given, &mut room.tape, run)?;
    decoding.restart();
    match decoding.taped(alloc, given.bytes, &room.tape, fault) {
        Ok(()) => Ok(()),
        Err(_) => Err(AllocError),
    }
}

// The lines of all runs.
fn write(alloc: Global, given: &Given<'_>, room: &mut Room, per: u64) -> Result<(), AllocError>
    requires file { IsFile given.now }
    requires per { 0 < per }
{
    let mut decoding = Decoding::opening(alloc, given.bytes, given.options, Writing::Lines)?;
    let mut before = 0;
    'by_run: while before < given.frames.count() {
        let run = run_at(given.frames, before, per);
        lines_of(alloc, given, room, run, &mut decoding)?;
        before += run.frames;
    }
    Ok(())
}

/// All runs of a file, by one stage.
pub fn pass(
    alloc: Global,
    given: &Given<'_>,
    stage: Stage,
    room: &mut Room,
) -> Result<(), AllocError>
    requires { IsFile given.now }
{
    let per = given.per.max(1);
    match stage {
        Stage::Tape => each(alloc, given, room, per, false),
        Stage::Sums => each(alloc, given, room, per, true),
        Stage::Apply => act(alloc, given, room, per),
        Stage::Lines => write(alloc, given, room, per),
    }
}

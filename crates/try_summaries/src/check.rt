//! Whether summaries lead to where the rows lead.
ghost use Rattle.std.specs.Prelude.{◌≡◌, ◌<◌, ◌≤◌, ◌^◌, length, IfOk};
ghost use Rattle.jl_frames.specs.Index.{IsIndex};
ghost use Rattle.jl_rows.specs.Seen.{options_seen};
ghost use Rattle.jl_state.specs.Lawful as states;
ghost use Rattle.jl_tape.specs.Tapes.{HasRows};
ghost use Rattle.jl_sym.specs.Lawful.{IsLawful};
ghost use Rattle.jl_sym_laws.specs.Staying.{IsSettled};
ghost use Rattle.jl_compose.specs.Blocks.{all_rows, AreLawful, IsBounded};
ghost use Rattle.try_summaries.specs.Given.{IsFile};

use crate::runs::{Given, Room, read, run_at, summary};
use jl_apply::{Halt, apply_in};
use jl_base::{Fault, Run};
use jl_compact::compact;
use jl_compose::{Block, append, compose, unit};
use jl_state::{State, Stop};
use jl_sym::Summary;
use jl_tape::Tape;
use std::alloc::{AllocError, Global};

// Where a file leads: a state, or the first fault, as text.
fn shown(alloc: Global, state: &State, ended: Result<(), Fault>) -> Result<String, AllocError> {
    match ended {
        Ok(()) => Ok(format!(in alloc; "{state:?}")?),
        Err(fault) => Ok(format!(in alloc; "{fault:?}")?),
    }
}

/// The state before the first row.
pub fn opening(alloc: Global, given: &Given<'_>) -> Result<State, AllocError>
    requires { IsFile given.now }
    ensures state { IfOk result (states.IsLawful given.now.bytes.now) }
    ensures settled { IfOk result (λ s. IsSettled (options_seen given.now.bytes.now given.now.options.now) (states.state_seen given.now.bytes.now s)) }
    ensures options { IfOk result (λ s. s.options ≡ given.now.options.now) }
{
    State::opening(alloc, given.bytes, given.options)
}

// One row after another, and then the fault that ends them.
fn step_all(
    alloc: Global,
    given: &Given<'_>,
    tape: &Tape,
    fault: Option<Fault>,
    state: &mut State,
) -> Result<Result<(), Fault>, AllocError>
    requires file { IsFile given.now }
    requires rows { HasRows given.now.bytes.now tape.now }
    requires state { states.IsLawful given.now.bytes.now state.old }
{
    for i in 0..tape.len() {
        let placed = tape.at(i);
        match state.step(alloc, given.bytes, &placed.row) {
            Ok(_) => {}
            Err(Stop::Fault(kind)) => {
                return Ok(Err(Fault {
                    place: placed.place,
                    kind,
                }));
            }
            Err(Stop::NoMemory) => return Err(AllocError),
        }
    }
    match fault {
        Some(fault) => Ok(Err(fault)),
        None => Ok(Ok(())),
    }
}

// Row by row.
fn by_rows(alloc: Global, given: &Given<'_>, tape: &mut Tape) -> Result<String, AllocError>
    requires { IsFile given.now }
{
    let all = Run {
        lo: 0,
        hi: 0,
        first_frame: given.frames.first(),
        frames: given.frames.count(),
    };
    let fault = read(given, tape, all)?;
    let mut state = opening(alloc, given)?;
    let ended = step_all(alloc, given, tape, fault, &mut state)?;
    shown(alloc, &state, ended)
}

// By a summary of the whole file.
fn by_summary(alloc: Global, given: &Given<'_>, whole: &Summary) -> Result<String, AllocError>
    requires file { IsFile given.now }
    requires lawful { IsLawful (options_seen given.now.bytes.now given.now.options.now) given.now.bytes.now whole.now }
{
    let mut state = opening(alloc, given)?;
    match apply_in(alloc, whole, given.bytes, &mut state) {
        Ok(()) => shown(alloc, &state, Ok(())),
        Err(Halt::Fault(fault)) => shown(alloc, &state, Err(fault)),
        Err(Halt::NoMemory) => Err(AllocError),
    }
}

// By a block.
fn by_block(alloc: Global, given: &Given<'_>, whole: &Block) -> Result<String, AllocError>
    requires file { IsFile given.now }
    requires lawful { AreLawful (options_seen given.now.bytes.now given.now.options.now) given.now.bytes.now whole.now.leaves.items }
{
    let mut state = opening(alloc, given)?;
    match whole.apply_in(alloc, given.bytes, &mut state) {
        Ok(()) => shown(alloc, &state, Ok(())),
        Err(Halt::Fault(fault)) => shown(alloc, &state, Err(fault)),
        Err(Halt::NoMemory) => Err(AllocError),
    }
}

// More rows than this aren't tried.
const MOST: u32 = 1 << 30;

// Run by run from the first, each after all before it.
fn forward(
    alloc: Global,
    given: &Given<'_>,
    room: &mut Room,
    per: u64,
) -> Result<Summary, AllocError>
    requires file { IsFile given.now }
    requires per { 0 < per }
    ensures lawful { IfOk result (IsLawful (options_seen given.now.bytes.now given.now.options.now) given.now.bytes.now) }
{
    let mut whole = unit(alloc);
    let mut before = 0;
    'by_run: while before < given.frames.count() {
        let run = run_at(given.frames, before, per);
        let next = summary(alloc, given, room, run)?;
        if whole.rows > MOST {
            return Err(AllocError);
        }
        append(alloc, given.bytes, &mut whole, &next)?;
        before += run.frames;
    }
    Ok(whole)
}

// Run by run from the last, each before all after it.
fn backward(
    alloc: Global,
    given: &Given<'_>,
    room: &mut Room,
    per: u64,
) -> Result<Summary, AllocError>
    requires file { IsFile given.now }
    requires per { 0 < per }
    ensures lawful { IfOk result (IsLawful (options_seen given.now.bytes.now given.now.options.now) given.now.bytes.now) }
{
    let mut whole = unit(alloc);
    let mut left = given.frames.count();
    'by_run: while 0 < left {
        let count = per.min(left);
        let before = left - count;
        let run = run_at(given.frames, before, count);
        let earlier = summary(alloc, given, room, run)?;
        if whole.rows > MOST {
            return Err(AllocError);
        }
        whole = compose(alloc, given.bytes, &earlier, &whole)?;
        left = before;
    }
    Ok(whole)
}

// Run by run, as a block that grows.
fn in_blocks(
    alloc: Global,
    given: &Given<'_>,
    room: &mut Room,
    per: u64,
) -> Result<Block, AllocError>
    requires file { IsFile given.now }
    requires per { 0 < per }
    ensures lawful { IfOk result (λ b. AreLawful (options_seen given.now.bytes.now given.now.options.now) given.now.bytes.now b.leaves.items) }
{
    let (bytes, options) = (given.bytes, given.options);
    let mut whole = Block::of(alloc, bytes, options, unit(alloc))?;
    let mut rows: u64 = 0;
    let mut before = 0;
    'by_run: while before < given.frames.count() {
        let run = run_at(given.frames, before, per);
        let next = summary(alloc, given, room, run)?;
        if rows > u64::from(MOST) {
            return Err(AllocError);
        }
        rows += u64::from(next.rows);
        let next = Block::of(alloc, bytes, options, next)?;
        whole = Block::both(alloc, bytes, options, &whole, &next)?;
        before += run.frames;
    }
    Ok(whole)
}

// A summary leads there, as it is and compacted.
fn leads(
    alloc: Global,
    given: &Given<'_>,
    whole: Summary,
    wanted: &String,
) -> Result<bool, AllocError>
    requires file { IsFile given.now }
    requires lawful { IsLawful (options_seen given.now.bytes.now given.now.options.now) given.now.bytes.now whole }
{
    let mut whole = whole;
    if by_summary(alloc, given, &whole)? != *wanted {
        return Ok(false);
    }
    compact(alloc, given.bytes, given.options, &mut whole)?;
    Ok(by_summary(alloc, given, &whole)? == *wanted)
}

// So it is with runs of so many frames.
fn agree_by(
    alloc: Global,
    given: &Given<'_>,
    room: &mut Room,
    per: u64,
    wanted: &String,
) -> Result<bool, AllocError>
    requires file { IsFile given.now }
    requires per { 0 < per }
{
    let first = forward(alloc, given, room, per)?;
    if !leads(alloc, given, first, wanted)? {
        return Ok(false);
    }
    let second = backward(alloc, given, room, per)?;
    if !leads(alloc, given, second, wanted)? {
        return Ok(false);
    }
    let third = in_blocks(alloc, given, room, per)?;
    Ok(by_block(alloc, given, &third)? == *wanted)
}

/// Whether by summaries of runs of 1, 2, 3 and 7 frames, composed in two groupings, as they are and compacted, and by
/// blocks, the file leads to the very state, or fault, to which its rows lead.
pub fn agree(alloc: Global, given: &Given<'_>, room: &mut Room) -> Result<bool, AllocError>
    requires { IsFile given.now }
{
    let wanted = by_rows(alloc, given, &mut room.tape)?;
    for per in [1, 2, 3, 7] {
        if !agree_by(alloc, given, room, per, &wanted)? {
            return Ok(false);
        }
    }
    Ok(true)
}

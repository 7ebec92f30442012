//! The decoding of a whole file, from its index and its head to its last wave.
ghost use Rattle.std.specs.Prelude.{◌≡◌, ◌<◌, ◌≤◌, [], IfOk, length};
ghost use Rattle.jl_base.specs.Limits.{most_bytes};
ghost use Rattle.jl_frames.specs.Index.{IsIndex};
ghost use Rattle.jl_rows.specs.Decoder.{decode, decoded_on};
ghost use Rattle.jl_rows.specs.Files as files;
ghost use Rattle.jl_rows.specs.Heads.{ArePassed};
ghost use Rattle.jl_rows.specs.Seen.{options_seen};
ghost use Rattle.jl_decode.specs.Tallies.{counts_of};
ghost use Rattle.jl_lines.specs.Going.{all_of, at_end};
ghost use Rattle.jl_lines.specs.Giving.{Delivers, outlet};
ghost use Rattle.jl_lines.specs.Writings.{written};

use crate::waves::decode_frames;
use jl_base::{Sink, Space};
use jl_drive::Gate;
use jl_frames::{Frames, Plan, index};
use jl_lines::{Broken, Counts, Decoding, Writing};
use jl_rows::{Head, Options, head};
use jl_scan::File;
use std::alloc::Global;
use std::thread::Threads;

/// How many frames a file has, and how many statements and namespace declarations.
#[derive(Clone, Copy, Debug, PartialEq, Eq)]
pub struct Tally {
    pub frames: u64,
    pub statements: u64,
    pub namespaces: u64,
}

/// Decodes a file by waves of runs of `per` frames, and gives a sink what is written of its items: a wave's before the
/// next one begins. As many workers as are wanted share a wave, at most 64. Takes the index of the frames, the state's
/// tables, and a page of lines; and with several workers two states' tables for each, and pages for a wave.
pub(crate) fn decode_file<R: Threads + Sync, K: Sink, G: Gate>(
    rt: &R,
    alloc: Global,
    space: &Space,
    per: u32,
    workers: u32,
    strict: bool,
    writing: Writing,
    out: &mut K,
    gate: &G,
) -> Result<Tally, Broken>
    requires short { length space.now ≤ most_bytes }
    requires some { 0 < per }
    ensures delivers { Delivers (all_of (written writing) (decode strict space.now)) (outlet K.held K.faults out.old) (outlet K.held K.faults out.new) (λ tally. at_end (counts_of tally)) result }
    ensures frames { IfOk result (λ tally. tally.frames ≡ length (files.frames space.now).items) }
{
    let Ok(frames) = index(alloc, space) else {
        return Err(Broken::NoMemory);
    };
    let counts = decode_space(
        rt, alloc, space, &frames, per, workers, strict, writing, out, gate,
    )?;
    Ok(Tally {
        frames: frames.count(),
        statements: counts.statements,
        namespaces: counts.namespaces,
    })
}

// The same, with the index of the file's frames.
fn decode_space<R: Threads + Sync, K: Sink, G: Gate>(
    rt: &R,
    alloc: Global,
    space: &Space,
    frames: &Frames,
    per: u32,
    workers: u32,
    strict: bool,
    writing: Writing,
    out: &mut K,
    gate: &G,
) -> Result<Counts, Broken>
    requires short { length space.now ≤ most_bytes }
    requires indexed { IsIndex space.now frames.now }
    requires some { 0 < per }
    ensures { Delivers (all_of (written writing) (decode strict space.now)) (outlet K.held K.faults out.old) (outlet K.held K.faults out.new) (λ counts. at_end counts) result }
{
    match head(space).under(strict) {
        Head::Empty => Ok(Counts {
            statements: 0,
            namespaces: 0,
        }),
        Head::Bad(fault) => Err(Broken::Malformed(fault)),
        Head::First(options, _) => decode_under(
            rt, alloc, space, frames, &options, per, workers, writing, out, gate,
        ),
    }
}

// The same, under options that passed the checks of a first row.
fn decode_under<R: Threads + Sync, K: Sink, G: Gate>(
    rt: &R,
    alloc: Global,
    space: &Space,
    frames: &Frames,
    options: &Options,
    per: u32,
    workers: u32,
    writing: Writing,
    out: &mut K,
    gate: &G,
) -> Result<Counts, Broken>
    requires short { length space.now ≤ most_bytes }
    requires indexed { IsIndex space.now frames.now }
    requires passed { ArePassed space.now options.now }
    requires some { 0 < per }
    ensures { Delivers (all_of (written writing) (decoded_on (options_seen space.now options.now) [] (files.all_rows space.now))) (outlet K.held K.faults out.old) (outlet K.held K.faults out.new) (λ counts. at_end counts) result }
{
    let Ok(plan) = Plan::cut(alloc, frames, per) else {
        return Err(Broken::NoMemory);
    };
    let Ok(mut decoding) = Decoding::opening(alloc, space.bytes(), options, writing) else {
        return Err(Broken::NoMemory);
    };
    let file = File {
        space,
        frames,
        plan: &plan,
        options,
    };
    decode_frames(rt, alloc, &file, workers, &mut decoding, gate, out)
}

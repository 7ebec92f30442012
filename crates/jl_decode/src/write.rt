//! The lines of a whole file.
ghost use Rattle.std.specs.Prelude.{◌<◌, ◌≤◌, length};
ghost use Rattle.jl_base.specs.Limits.{most_bytes};
ghost use Rattle.jl_rows.specs.Decoder.{decode};
ghost use Rattle.jl_decode.specs.Writes.{WritesLines};

use crate::file::decode_file;
use jl_base::{Fault, Sink, Space};
use jl_drive::Gate;
use jl_lines::{Broken, Writing};
use std::alloc::Global;
use std::thread::Threads;

/// How the writing of a file's lines ended.
#[derive(Clone, Copy, Debug)]
pub enum Ended {
    /// The file has no fault, and all lines were given.
    Whole,
    /// The file's first fault; the lines before it were given.
    Malformed(Fault),
    /// The sink failed. It was given a prefix of the lines.
    WriteFault,
    /// Memory wasn't found. The sink was given a prefix of the lines.
    NoMemory,
}

/// Gives a sink the lines of what a file states, under the strict profile or not, up to its first fault. The file is
/// decoded by waves of runs of `per` frames, and a wave's lines are given before the next one begins. `workers` share a
/// wave, 64 at most; the lines are the same for any number of them. The gate is told when one of several is about to decode
/// a run. Takes the state's tables, eight bytes for each slot that the options allow, the index of the frames, and a page of
/// lines; and where there are several workers, two such states for each, and what a wave's lines take.
pub fn write_lines<R: Threads + Sync, K: Sink, G: Gate>(
    rt: &R,
    alloc: Global,
    space: &Space,
    per: u32,
    workers: u32,
    strict: bool,
    out: &mut K,
    gate: &G,
) -> Ended
    requires short { length space.now ≤ most_bytes }
    requires some { 0 < per }
    ensures { WritesLines (decode strict space.now) (K.held out.old) (K.held out.new) (K.faults out.old) (K.faults out.new) result }
{
    match decode_file(
        rt,
        alloc,
        space,
        per,
        workers,
        strict,
        Writing::Lines,
        out,
        gate,
    ) {
        Ok(_) => Ended::Whole,
        Err(Broken::Malformed(fault)) => Ended::Malformed(fault),
        Err(Broken::WriteFault) => Ended::WriteFault,
        Err(Broken::NoMemory) => Ended::NoMemory,
    }
}

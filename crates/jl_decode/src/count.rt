//! How many items a file states.
ghost use Rattle.std.specs.Prelude.{◌<◌, ◌≤◌, length};
ghost use Rattle.jl_base.specs.Limits.{most_bytes};
ghost use Rattle.jl_rows.specs.Decoder.{decode};
ghost use Rattle.jl_rows.specs.Files.{frames};
ghost use Rattle.jl_decode.specs.Tallies.{Tallies};

use crate::file::{Tally, decode_file};
use crate::nowhere::Nowhere;
use jl_base::Space;
use jl_drive::Gate;
use jl_lines::{Broken, Refused, Writing};
use std::alloc::Global;
use std::thread::Threads;

/// Decodes a whole file, under the strict profile or not, by waves of runs of `per` frames, and counts its items. `workers`
/// share a wave, 64 at most; the counts are the same for any number of them. No text is made. Takes the state's tables,
/// eight bytes for each slot that the options allow, and the index of the frames; and where there are several workers, two
/// such states for each.
pub fn count_items<R: Threads + Sync, G: Gate>(
    rt: &R,
    alloc: Global,
    space: &Space,
    per: u32,
    workers: u32,
    strict: bool,
    gate: &G,
) -> Result<Tally, Refused>
    requires short { length space.now ≤ most_bytes }
    requires some { 0 < per }
    ensures { Tallies (length (frames space.now).items) (decode strict space.now) result }
{
    match decode_file(
        rt,
        alloc,
        space,
        per,
        workers,
        strict,
        Writing::Nothing,
        &mut Nowhere,
        gate,
    ) {
        Ok(tally) => Ok(tally),
        Err(Broken::Malformed(fault)) => Err(Refused::Malformed(fault)),
        Err(Broken::WriteFault) => unreachable!(),
        Err(Broken::NoMemory) => Err(Refused::NoMemory),
    }
}

//! The decoding of a source, from its first window to its last.
ghost use Rattle.std.specs.Prelude.{◌≡◌, ◌+◌, ◌≤◌, ◌^◌, ℕ, false, length};
ghost use Rattle.jl_base.specs.Limits.{most_bytes};
ghost use Rattle.jl_base.specs.Sources.{Told};
ghost use Rattle.jl_frames.specs.Index.{AreLaid, bytes_of};
ghost use Rattle.jl_lines.specs.Counts.{none_counted};
ghost use Rattle.jl_lines.specs.Giving.{outlet};
ghost use Rattle.jl_rows.specs.Heads.{ArePassed};
ghost use Rattle.jl_windows.specs.Steps.{Begins};
ghost use Rattle.jl_windows.specs.Streams.{DecodesSource};

use crate::seek::{Sought, seek_window};
use crate::stopped::{Stopped, Streamed};
use crate::window::decode_on;
use jl_base::{Sink, Source, Space};
use jl_frames::{Feed, Window};
use jl_lines::{Counts, Decoding, Writing};
use jl_rows::Options;
use std::alloc::Global;

// No items.
fn no_counts() -> Counts
    ensures { result ≡ none_counted }
{
    Counts {
        statements: 0,
        namespaces: 0,
    }
}

// Decodes the window that has the first row, and all after it, under the options of that row.
fn decode_from<S: Source, K: Sink>(
    alloc: Global,
    source: &mut S,
    feed: &mut Feed,
    left: &mut u64,
    space: &mut Space,
    window: &Window,
    options: &Options,
    strict: bool,
    writing: Writing,
    out: &mut K,
) -> Result<Streamed, Stopped>
    requires passed { ArePassed space.old options.now }
    requires short { length space.old ≤ most_bytes }
    requires laid { (last : ℕ) × AreLaid window.now.frames.lo window.now.frames.bodies last × (last ≤ length space.old) }
    requires going { window.now.last ≡ false → feed.old.ended ≡ false }
    requires few { length feed.old.held + bytes_of window.now.frames + left.old ≤ 2 ^ 60 }
    ensures { (before : Told) (limit size : ℕ) → Begins strict before (S.told source.old) limit left.old size feed.old space.old window.now options.now → DecodesSource writing strict before (S.told source.new) limit left.new size (outlet K.held K.faults out.old) (outlet K.held K.faults out.new) result }
{
    let Ok(mut decoding) = Decoding::opening(alloc, space.bytes(), options, writing) else {
        return Err(Stopped::NoMemory);
    };
    decode_on(alloc, source, feed, left, space, window, &mut decoding, out)
}

/// Decodes a source by windows of this many bytes, or of one frame where that is longer, under the strict profile or not,
/// and gives a sink what is written of its items: a window's before the next one is read. `left` is how many bytes may
/// still be read; TooLong is that one more was. Each frame has at most 2^27 bytes, and a longer one is a fault. Takes the
/// state's tables, eight bytes for each slot that the options allow, twice; memory for one window with the texts that the
/// state keeps, and for those texts once more; the places of its frames; and a page of lines. Where a window and the texts
/// before it have more than 2^30 bytes, memory isn't found.
pub fn decode_source<S: Source, K: Sink>(
    alloc: Global,
    source: &mut S,
    window: u64,
    left: &mut u64,
    strict: bool,
    writing: Writing,
    out: &mut K,
) -> Result<Streamed, Stopped>
    requires least { 16 ≤ window }
    requires most { window ≤ 2 ^ 26 }
    requires few { left.old ≤ 2 ^ 60 }
    ensures { DecodesSource writing strict (S.told source.old) (S.told source.new) left.old left.new window (outlet K.held K.faults out.old) (outlet K.held K.faults out.new) result }
{
    let mut feed = Feed::new(alloc, window);
    let mut space = Space::new(alloc);
    'windows: loop {
        match seek_window(source, &mut feed, left, &mut space, strict) {
            Ok(Sought::Further) => {}
            Ok(Sought::Ended) => {
                return Ok(Streamed {
                    frames: feed.given(),
                    counts: no_counts(),
                });
            }
            Ok(Sought::First(window, options)) => {
                return decode_from(
                    alloc, source, &mut feed, left, &mut space, &window, &options, strict, writing,
                    out,
                );
            }
            Err(why) => return Err(why),
        }
    }
}

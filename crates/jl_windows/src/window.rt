//! The decoding of one window, and of the windows after it.
ghost use Rattle.std.specs.Prelude.{◌≡◌, ◌+◌, ◌<◌, ◌≤◌, ◌^◌, Bool, ℕ, [], Ok, false, length, OnOk};
ghost use Rattle.jl_base.specs.Limits.{most_bytes};
ghost use Rattle.jl_base.specs.Sources.{Told};
ghost use Rattle.jl_frames.specs.Feeding.{Feeding};
ghost use Rattle.jl_frames.specs.Index.{AreLaid, bytes_of};
ghost use Rattle.jl_lines.specs.Giving.{Outlet, outlet};
ghost use Rattle.jl_lines.specs.Going.{counted};
ghost use Rattle.jl_lines.specs.Kept.{Keeps};
ghost use Rattle.jl_lines.specs.declared.writing.Writing as writings;
ghost use Rattle.jl_windows.specs.Steps.{Before, ComesTo, Going};
ghost use Rattle.jl_windows.specs.Streams.{DecodesSource};

use crate::reading::read_window;
use crate::stopped::{Stopped, Streamed, why_broken_off};
use jl_base::{Sink, Source, Space};
use jl_frames::{Feed, Window};
use jl_lines::Decoding;
use jl_state::bring_texts;
use std::alloc::Global;

/// Decodes the frames of a window, whose bytes stand in the space; whether it was the last.
pub(crate) fn decode_window<K: Sink>(
    alloc: Global,
    decoding: &mut Decoding,
    space: &Space,
    window: &Window,
    out: &mut K,
) -> Result<bool, Stopped>
    requires kept { Keeps space.now decoding.old }
    requires short { length space.now ≤ most_bytes }
    requires laid { (last : ℕ) × AreLaid window.now.frames.lo window.now.frames.bodies last × (last ≤ length space.now) }
    requires few { counted decoding.old ≤ 2 ^ 61 }
    ensures comes { (writing : writings.Writing) (strict : Bool) (before told : Told) (limit left size : ℕ) (feed : Feeding) (k : Outlet) → Before writing strict before told limit left size feed space.now window.now decoding.old k (outlet K.held K.faults out.old) → ComesTo writing strict before told limit left size feed space.now decoding.new k (outlet K.held K.faults out.new) result }
    ensures kept { OnOk result (Keeps space.now decoding.new) }
    ensures few { OnOk result (counted decoding.new ≤ counted decoding.old + bytes_of window.now.frames) }
    ensures last { result ≡ Ok false → window.now.last ≡ false }
{
    let frames = &window.frames;
    match decoding.deliver(alloc, space.bytes(), frames, 0, frames.count(), out) {
        Ok(()) => {}
        Err(why) => return Err(why_broken_off(why)),
    }
    if !window.last {
        return Ok(false);
    }
    match frames.tail() {
        Some(fault) => Err(Stopped::Malformed(fault)),
        None => Ok(true),
    }
}

/// Reads one window more and decodes it; whether it was the last. The state's texts are brought to the space's start, and
/// the window's frames stand after them.
fn next_window<S: Source, K: Sink>(
    alloc: Global,
    source: &mut S,
    feed: &mut Feed,
    left: &mut u64,
    space: &mut Space,
    aside: &mut Space,
    decoding: &mut Decoding,
    out: &mut K,
) -> Result<bool, Stopped>
    requires going { feed.old.ended ≡ false }
    requires kept { Keeps space.old decoding.old }
    requires few { counted decoding.old + length feed.old.held + left.old ≤ 2 ^ 60 }
    ensures comes { (writing : writings.Writing) (strict : Bool) (before : Told) (limit size : ℕ) (k : Outlet) → Going writing strict before (S.told source.old) limit left.old size feed.old space.old decoding.old k (outlet K.held K.faults out.old) → ComesTo writing strict before (S.told source.new) limit left.new size feed.new space.new decoding.new k (outlet K.held K.faults out.new) result }
    ensures going { result ≡ Ok false → feed.new.ended ≡ false }
    ensures kept { OnOk result (Keeps space.new decoding.new) }
    ensures few { OnOk result (counted decoding.new + length feed.new.held + left.new ≤ 2 ^ 60) }
    ensures comes_on { result ≡ Ok false → length feed.new.held + left.new < length feed.old.held + left.old }
{
    let Ok(()) = bring_texts(alloc, &mut decoding.state, space, aside) else {
        return Err(Stopped::NoMemory);
    };
    let window = match read_window(source, feed, left, space) {
        Ok(window) => window,
        Err(why) => return Err(why),
    };
    decode_window(alloc, decoding, space, &window, out)
}

// Reads and decodes all further windows, to the last one.
fn decode_rest<S: Source, K: Sink>(
    alloc: Global,
    source: &mut S,
    feed: &mut Feed,
    left: &mut u64,
    space: &mut Space,
    decoding: &mut Decoding,
    out: &mut K,
) -> Result<Streamed, Stopped>
    requires going { feed.old.ended ≡ false }
    requires kept { Keeps space.old decoding.old }
    requires few { counted decoding.old + length feed.old.held + left.old ≤ 2 ^ 60 }
    ensures { (writing : writings.Writing) (strict : Bool) (before : Told) (limit size : ℕ) (k : Outlet) → Going writing strict before (S.told source.old) limit left.old size feed.old space.old decoding.old k (outlet K.held K.faults out.old) → DecodesSource writing strict before (S.told source.new) limit left.new size k (outlet K.held K.faults out.new) result }
{
    let mut aside = Space::new(alloc);
    'windows: loop {
        let last = match next_window(alloc, source, feed, left, space, &mut aside, decoding, out) {
            Ok(last) => last,
            Err(why) => return Err(why),
        };
        if last {
            return Ok(Streamed {
                frames: feed.given(),
                counts: decoding.counts,
            });
        }
    }
}

/// Decodes a window that was read, and then all further ones.
pub(crate) fn decode_on<S: Source, K: Sink>(
    alloc: Global,
    source: &mut S,
    feed: &mut Feed,
    left: &mut u64,
    space: &mut Space,
    window: &Window,
    decoding: &mut Decoding,
    out: &mut K,
) -> Result<Streamed, Stopped>
    requires kept { Keeps space.old decoding.old }
    requires short { length space.old ≤ most_bytes }
    requires laid { (last : ℕ) × AreLaid window.now.frames.lo window.now.frames.bodies last × (last ≤ length space.old) }
    requires going { window.now.last ≡ false → feed.old.ended ≡ false }
    requires few { counted decoding.old + length feed.old.held + bytes_of window.now.frames + left.old ≤ 2 ^ 60 }
    ensures { (writing : writings.Writing) (strict : Bool) (before : Told) (limit size : ℕ) (k : Outlet) → Before writing strict before (S.told source.old) limit left.old size feed.old space.old window.now decoding.old k (outlet K.held K.faults out.old) → DecodesSource writing strict before (S.told source.new) limit left.new size k (outlet K.held K.faults out.new) result }
{
    let last = match decode_window(alloc, decoding, space, window, out) {
        Ok(last) => last,
        Err(why) => return Err(why),
    };
    if last {
        return Ok(Streamed {
            frames: feed.given(),
            counts: decoding.counts,
        });
    }
    decode_rest(alloc, source, feed, left, space, decoding, out)
}

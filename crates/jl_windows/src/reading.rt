//! The reading of one window more.
ghost use Rattle.std.specs.Prelude.{◌≡◌, ◌≤◌, ◌^◌, ℕ, List, false, IfOk};
ghost use Rattle.jl_base.specs.Sources.{Told};
ghost use Rattle.jl_windows.specs.Sources.{HasTaken, ReadsOn, Streaming};

use crate::stopped::{Stopped, why_unread};
use jl_base::{Source, Space};
use jl_frames::{Feed, Window};

/// How many frames a feed may have given before its next window.
const MOST_FRAMES: u64 = 1 << 62;

/// How many bytes a window may have, with the texts that stand before it.
const MOST_BYTES: usize = 1 << 30;

/// Puts the frames of the next window after the bytes of the space. Where these are more than 2^30 bytes then, memory
/// isn't found.
pub(crate) fn read_window<S: Source>(
    source: &mut S,
    feed: &mut Feed,
    left: &mut u64,
    space: &mut Space,
) -> Result<Window, Stopped>
    requires going { feed.old.ended ≡ false }
    ensures reads { (before : Told) (limit size : ℕ) (windows : List (List (List ℕ))) → Streaming before (S.told source.old) limit left.old size feed.old windows → ReadsOn before (S.told source.new) limit left.new size feed.new windows space.new result }
    ensures taken { IfOk result (HasTaken feed.old feed.new left.old left.new space.old space.new) }
{
    if feed.given() > MOST_FRAMES {
        return Err(Stopped::NoMemory);
    }
    let window = match feed.window(source, left, space) {
        Ok(window) => window,
        Err(fault) => return Err(why_unread(fault)),
    };
    if space.len() > MOST_BYTES {
        return Err(Stopped::NoMemory);
    }
    Ok(window)
}

//! The search for a file's first row, over windows.
ghost use Rattle.std.specs.Prelude.{◌≡◌, ◌+◌, ◌<◌, ◌≤◌, ◌^◌, Bool, ℕ, List, Ok, false, length, IfOk};
ghost use Rattle.jl_base.specs.Limits.{most_bytes};
ghost use Rattle.jl_base.specs.Sources.{Told};
ghost use Rattle.jl_frames.specs.Feeding.{Feeding};
ghost use Rattle.jl_windows.specs.Sources.{AtWindow, bodies_in};
ghost use Rattle.jl_windows.specs.Found.{IsFound, OfRowless};
ghost use Rattle.jl_windows.specs.Steps.{HaveNoRows, Seeking, Seeks};
ghost use Rattle.jl_windows.specs.Whole.{bodies_of};

use crate::reading::read_window;
use crate::stopped::Stopped;
use jl_base::{Source, Space};
use jl_frames::{Feed, Window};
use jl_rows::{Head, Options, head_at};

/// What a window has of the file's first row.
#[derive(Debug, Drop)]
pub(crate) enum Sought {
    /// There are no rows yet, and further windows.
    Further,
    /// It was the last window, and the file has no rows.
    Ended,
    /// The options in the first row, which passed their checks.
    First(Window, Options),
}

// What comes after a window without rows.
fn without_rows(window: &Window) -> Result<Sought, Stopped>
    ensures seeks { (strict : Bool) (before told : Told) (limit left size : ℕ) (feed : Feeding) (windows : List (List (List ℕ))) (bytes : List ℕ) → AtWindow before told limit left size feed windows bytes window.now → HaveNoRows 1 (bodies_of windows) → HaveNoRows window.now.frames.first (bodies_in bytes window.now) → Seeks strict before told limit left size feed bytes result }
    ensures found { IfOk result (OfRowless window.now.last) }
{
    if !window.last {
        return Ok(Sought::Further);
    }
    match window.frames.tail() {
        Some(fault) => Err(Stopped::Malformed(fault)),
        None => Ok(Sought::Ended),
    }
}

/// One window more, in place of the last one's bytes, and what it has of the first row.
pub(crate) fn seek_window<S: Source>(
    source: &mut S,
    feed: &mut Feed,
    left: &mut u64,
    space: &mut Space,
    strict: bool,
) -> Result<Sought, Stopped>
    requires going { feed.old.ended ≡ false }
    ensures seeks { (before : Told) (limit size : ℕ) → Seeking before (S.told source.old) limit left.old size feed.old → Seeks strict before (S.told source.new) limit left.new size feed.new space.new result }
    ensures found { IfOk result (IsFound feed.old feed.new left.old left.new space.new) }
{
    space.cut(0);
    let window = match read_window(source, feed, left, space) {
        Ok(window) => window,
        Err(why) => return Err(why),
    };
    match head_at(space, 0, space.len() as u64, window.frames.first()).under(strict) {
        Head::Empty => without_rows(&window),
        Head::Bad(fault) => Err(Stopped::Malformed(fault)),
        Head::First(options, _) => Ok(Sought::First(window, options)),
    }
}

//! A source that is read window by window.
ghost use Rattle.std.specs.Prelude.{◌≡◌, ◌<◌, ◌+◌, ◌≤◌, ◌^◌, [], false, length, IfOk, OnErr, OnOk};
ghost use Rattle.jl_frames.specs.Index.{from};
ghost use Rattle.jl_frames.specs.Feeding.{Feeds, IsParted, Takes, TakesIn};
ghost use Rattle.jl_frames.specs.Windows.{first_size, wanted};

use crate::Frames;
use crate::walk::walk;
use jl_base::{FillFault, Source, Space};
use jl_wire::varint;
use std::alloc::{AllocError, Global};
use std::marker::Model;

/// How many bytes are asked of a source at a time.
const STEP: usize = 65_536;

/// How many bytes a frame's body may have.
const MOST_BODY: u64 = 1 << 27;

/// A reader of a source by windows. It keeps the bytes after the last window's frames: fewer than a window has, unless
/// that was the last one.
#[derive(Debug, Drop)]
pub struct Feed {
    window: usize,
    held: Vec<u8>,
    given: u64,
    ended: bool,
}

/// The frames of a window, and whether it is the last one.
#[derive(Debug, Drop)]
pub struct Window {
    pub frames: Frames,
    pub last: bool,
}

impl Model for Feed {
    ghost use Rattle.std.specs.Prelude.{◌≡◌, ◌≤◌, false, vec_len};
    ghost use Rattle.jl_frames.specs.Feeding.{Feeding};

    ghost Value = { Feeding };

    ghost view = { λ f. record { window = f.window; held = f.held.items; given = f.given; ended = f.ended } };

    ghost invariant = { λ f. (16 ≤ f.window) × (f.ended ≡ false → vec_len f.held ≤ f.window) };
}

impl Feed {
    /// A feed of windows of this many bytes, or of one frame where that is longer. Takes no memory.
    pub fn new(alloc: Global, window: u64) -> Feed
        requires least { 16 ≤ window }
        requires most { window ≤ 2 ^ 26 }
        ensures { result ≡ record { window = window; held = []; given = 0; ended = false } }
    {
        Feed {
            window: window as usize,
            held: Vec::new(alloc),
            given: 0,
            ended: false,
        }
    }

    /// Whether the last window was given, or one was refused: then there is no next one.
    pub fn is_ended(&self) -> bool
        ensures { result ≡ self.now.ended }
    {
        self.ended
    }

    /// How many frames the windows so far had.
    pub fn given(&self) -> u64
        ensures { result ≡ self.now.given }
    {
        self.given
    }

    /// The next window: its frames stand after the bytes of the space, and are numbered on from those of the windows
    /// before it. `left` is how many bytes may still be read; TooLong is that one more was. After a refusal the space
    /// is unchanged and the feed is ended, as it is after the last window. Takes memory for the window's bytes, its
    /// frames' places and the bytes that are held.
    pub fn window<S: Source>(
        &mut self,
        source: &mut S,
        left: &mut u64,
        space: &mut Space,
    ) -> Result<Window, FillFault>
        requires going { self.old.ended ≡ false }
        requires few { self.old.given ≤ 2 ^ 62 }
        ensures { Feeds self.old self.new (S.told source.old) (S.told source.new) left.old left.new space.old space.new result }
    {
        let start = space.len();
        let fault = match self.take_in(source, left, space) {
            Ok(at_end) => match self.part(space, start, at_end) {
                Ok(window) => return Ok(window),
                Err(_) => FillFault::NoMemory,
            },
            Err(fault) => fault,
        };
        space.cut(start);
        self.ended = true;
        Err(fault)
    }

    // Puts the bytes of the next window after those of the space, and answers whether the source ended in it.
    fn take_in<S: Source>(
        &self,
        source: &mut S,
        left: &mut u64,
        space: &mut Space,
    ) -> Result<bool, FillFault>
        requires going { self.now.ended ≡ false }
        ensures { TakesIn self.now (S.told source.old) (S.told source.new) left.old left.new space.old space.new result }
    {
        let start = space.len();
        let Ok(()) = space.append(&self.held) else {
            return Err(FillFault::NoMemory);
        };
        let Some(end) = start.checked_add(self.window) else {
            return Err(FillFault::NoMemory);
        };
        if take_to(source, left, space, end)? {
            return Ok(true);
        }
        let Some(end) = start.checked_add(first_size(space.bytes(), start)) else {
            return Err(FillFault::NoMemory);
        };
        take_to(source, left, space, end)
    }

    // The frames of the bytes that stand in the space from a place on; what is left after them is held.
    fn part(&mut self, space: &mut Space, start: usize, at_end: bool) -> Result<Window, AllocError>
        requires inside { start ≤ length space.old }
        requires few { self.old.given ≤ 2 ^ 62 }
        requires going { self.old.ended ≡ false }
        requires whole { at_end ≡ false → length (from space.old start) ≡ wanted self.old.window (from space.old start) }
        ensures ok { IfOk result (IsParted self.old self.new at_end space.old start space.new) }
        ensures err { OnErr result (space.new ≡ space.old) }
    {
        let alloc = *self.held.allocator();
        let walked = walk(alloc, space.bytes(), start)?;
        let last = walked.are_last(at_end);
        hold(&mut self.held, space.bytes(), walked.end)?;
        space.cut(walked.end);
        let frames = Frames::of_window(walked, start as u64, self.given + 1, last);
        self.given += frames.count();
        self.ended = last;
        Ok(Window { frames, last })
    }
}

// Reads a source until the space has bytes up to a place, and answers whether the source ended before that.
fn take_to<S: Source>(
    source: &mut S,
    left: &mut u64,
    space: &mut Space,
    end: usize,
) -> Result<bool, FillFault>
    ensures { Takes end (S.told source.old) (S.told source.new) left.old left.new space.old space.new result }
{
    'reads: while space.len() < end {
        let most = ask(end - space.len(), *left);
        let got = space.read(source, most)?;
        if got == 0 {
            return Ok(true);
        }
        if got as u64 > *left {
            *left = 0;
            return Err(FillFault::TooLong);
        }
        *left -= got as u64;
    }
    Ok(false)
}

// How many bytes to ask for: no more than are missing, and one more than may still come.
fn ask(missing: usize, left: u64) -> usize
    requires { 0 < missing }
    ensures some { 0 < result }
    ensures missing { result ≤ missing }
    ensures left { result ≤ left + 1 }
{
    let most = missing.min(STEP);
    if most as u64 > left {
        left as usize + 1
    } else {
        most
    }
}

// How many bytes the frame takes whose length stands at a place, where that length is one that a frame may have.
fn first_size(bytes: &[u8], at: usize) -> usize
    requires { at ≤ length bytes.now }
    ensures { result ≡ first_size (from bytes.now at) }
{
    match varint(bytes, at, bytes.len()) {
        Ok((len, start)) => {
            if len > MOST_BODY {
                0
            } else {
                start - at + len as usize
            }
        }
        Err(_) => 0,
    }
}

// Keeps the bytes from a place on, and none where there is no memory for them.
fn hold(held: &mut Vec<u8>, bytes: &[u8], at: usize) -> Result<(), AllocError>
    requires { at ≤ length bytes.now }
    ensures ok { OnOk result (held.new.items ≡ from bytes.now at) }
    ensures err { OnErr result (held.new.items ≡ []) }
{
    held.clear();
    held.extend_from_slice(&bytes[at..])
}

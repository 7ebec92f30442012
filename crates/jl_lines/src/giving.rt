//! What stands around the decoding of a stretch of frames: all that is written of them is given to a sink, whenever the page
//! is long and at the end.
ghost use Rattle.std.specs.Prelude.{◌≡◌, ℕ, [], ◌+◌, ◌<◌, ◌≤◌, ◌^◌, OnOk, length};
ghost use Rattle.jl_base.specs.Limits.{most_bytes};
ghost use Rattle.jl_base.specs.Results.{Reading};
ghost use Rattle.jl_base.specs.declared.place.Fault as faults;
ghost use Rattle.jl_frames.specs.Index.{AreLaid, behind};
ghost use Rattle.jl_frames.specs.Stretches.{between};
ghost use Rattle.jl_rows.specs.Files.{Placed};
ghost use Rattle.jl_lines.specs.Kept.{Keeps};
ghost use Rattle.jl_lines.specs.Pages.{KeepsNone};
ghost use Rattle.jl_lines.specs.Going.{counted, outcome};
ghost use Rattle.jl_lines.specs.Giving.{Delivers, Gives, outlet};

use crate::decoding::{Decoding, Refused};
use crate::stretch::Stand;
use jl_base::{Fault, Sink, write_all};
use jl_frames::Frames;
use std::alloc::Global;

/// Why the decoding of a file was broken off.
#[derive(Clone, Copy, Debug)]
pub enum Broken {
    /// The file's first fault; the lines before it were given.
    Malformed(Fault),
    WriteFault,
    NoMemory,
}

impl Decoding {
    /// Gives a sink the lines of the page, and forgets them.
    pub fn give<K: Sink>(&mut self, out: &mut K) -> Result<(), Broken>
        ensures gives { Gives self.old.page.lines (outlet K.held K.faults out.old) (outlet K.held K.faults out.new) result }
        ensures empty { OnOk result (self.new.page.lines ≡ []) }
        ensures kept { OnOk result (KeepsNone self.new.page) }
        ensures state { self.new.state ≡ self.old.state }
        ensures counts { self.new.counts ≡ self.old.counts }
        ensures writing { self.new.writing ≡ self.old.writing }
    {
        if write_all(out, self.page.lines()).is_err() {
            return Err(Broken::WriteFault);
        }
        self.page.clear();
        Ok(())
    }

    /// The items of the frames after the first `begin`, up to the first `end`. All that is written of them is given to a
    /// sink.
    pub fn deliver<K: Sink>(
        &mut self,
        alloc: Global,
        bytes: &[u8],
        frames: &Frames,
        begin: u64,
        end: u64,
        out: &mut K,
    ) -> Result<(), Broken>
        requires kept { Keeps bytes.now self.old }
        requires short { length bytes.now ≤ most_bytes }
        requires laid { (last : ℕ) × AreLaid frames.now.lo frames.now.bodies last × (last ≤ length bytes.now) }
        requires begin { begin ≤ end }
        requires end { end ≤ length frames.now.bodies }
        requires few { counted self.old ≤ 2 ^ 61 }
        ensures comes { (B : Reading Placed faults.Fault) → Delivers (outcome bytes.now self.old (between bytes.now frames.now begin end B)) (outlet K.held K.faults out.old) (outlet K.held K.faults out.new) (λ _. outcome bytes.now self.new B) result }
        ensures empty { OnOk result (self.new.page.lines ≡ []) }
        ensures few { OnOk result (counted self.new + behind frames.now begin ≤ counted self.old + behind frames.now end) }
        ensures kept { OnOk result (Keeps bytes.now self.new) }
        ensures options { self.new.state.options ≡ self.old.state.options }
        ensures writing { self.new.writing ≡ self.old.writing }
    {
        let mut stand = Stand::at(begin);
        'by_page: loop {
            match self.stretch(alloc, bytes, frames, stand, end) {
                Ok(Some(next)) => {
                    self.give(out)?;
                    stand = next;
                }
                Ok(None) => return self.give(out),
                Err(Refused::Malformed(fault)) => {
                    self.give(out)?;
                    return Err(Broken::Malformed(fault));
                }
                Err(Refused::NoMemory) => return Err(Broken::NoMemory),
            }
        }
    }
}

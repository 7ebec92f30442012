//! The walk over frames and rows, which resolves nothing.
ghost use Rattle.std.specs.Prelude.{◌≡◌, ◌+◌, ◌-◌, ◌*◌, ◌<◌, ◌≤◌, ◌^◌, [], ◌∷◌, List, ℕ, None, IfOk, OnOk, length, slice_range};
ghost use Rattle.jl_base.specs.Results.{Gives};
ghost use Rattle.jl_base.specs.Spans.{IsInside, text_of};
ghost use Rattle.jl_rows.specs.Files.{Placed, placed_on, rows};
ghost use Rattle.jl_rows.specs.Seen.{HasRow, row_seen};
ghost use Rattle.jl_frames.specs.Index.{IsIndex};
ghost use Rattle.jl_survey.specs.Surveys as spec;
ghost use Rattle.jl_survey.specs.Counting.{AreFew, AreFramesOf, Fits, Grew, HasRoom, HaveAllPassed, KeepsOptions, TakesFrame, TakesFrames, TakesRows, TakesWindow, size_of, survey_seen, with_frame};

use crate::first_row::first_row_checked;
use crate::metadata::metadata_between;
use crate::numbers::Survey;
use jl_base::{Fault, Place, Space, Span};
use jl_frames::Frames;
use jl_rows::{Row, next_row_into};

impl Survey {
    // The file's first row, which has the options.
    fn take_first(&mut self, bytes: &[u8], row: &Row, place: Place) -> Result<(), Fault>
        requires first { self.old.options ≡ None }
        requires inside { HasRow bytes.now row.now }
        requires few { AreFew (2 ^ 64 - 2) self.old }
        ensures comes { TakesRows bytes.now self.old (record { items = record { place = place; row = row_seen bytes.now row.now } ∷ []; fault = None }) self.new result }
        ensures options { OnOk result (KeepsOptions bytes.now self.old self.new) }
        ensures few { OnOk result (Grew 1 self.old self.new) }
        ensures bytes { self.new.bytes ≡ self.old.bytes }
    {
        match first_row_checked(bytes, *row) {
            Ok(options) => {
                self.options = Some(options);
                self.add(row);
                Ok(())
            }
            Err(kind) => Err(Fault { place, kind }),
        }
    }

    // One row more.
    #[inline]
    fn take(&mut self, bytes: &[u8], row: &Row, place: Place) -> Result<(), Fault>
        requires inside { HasRow bytes.now row.now }
        requires few { AreFew (2 ^ 64 - 2) self.old }
        ensures comes { TakesRows bytes.now self.old (record { items = record { place = place; row = row_seen bytes.now row.now } ∷ []; fault = None }) self.new result }
        ensures options { OnOk result (KeepsOptions bytes.now self.old self.new) }
        ensures few { OnOk result (Grew 1 self.old self.new) }
        ensures bytes { self.new.bytes ≡ self.old.bytes }
    {
        if self.options.is_none() {
            return self.take_first(bytes, row, place);
        }
        self.add(row);
        Ok(())
    }

    // The rows of the frame of a number.
    fn rows(&mut self, bytes: &[u8], start: usize, end: usize, number: u64) -> Result<(), Fault>
        requires start { start ≤ end }
        requires inside { end ≤ length bytes.now }
        requires short { end - start < 2 ^ 32 }
        requires few { Fits (end - start) self.old }
        ensures comes { TakesRows bytes.now self.old (placed_on number 0 (rows (slice_range bytes.now start end))) self.new result }
        ensures options { OnOk result (KeepsOptions bytes.now self.old self.new) }
        ensures few { OnOk result (Grew (end - start) self.old self.new) }
        ensures bytes { self.new.bytes ≡ self.old.bytes }
    {
        let mut at = start;
        let mut before = 0;
        let mut row = Row::GraphEnd;
        'by_row: loop {
            let place = Place {
                frame: number,
                row: before + 1,
            };
            match next_row_into(bytes, at, end, &mut row) {
                Ok(Some(next)) => {
                    self.take(bytes, &row, place)?;
                    at = next;
                    before += 1;
                }
                Ok(None) => return Ok(()),
                Err(kind) => return Err(Fault { place, kind }),
            }
        }
    }

    // One frame more, without its rows.
    fn add_frame(&mut self, bytes: &[u8], start: usize, end: usize)
        requires start { start ≤ end }
        requires inside { end ≤ length bytes.now }
        requires short { end - start < 2 ^ 32 }
        requires few { Fits (end - start + 1) self.old }
        ensures more { (kept : List ℕ) → survey_seen kept self.new ≡ with_frame (slice_range bytes.now start end) (survey_seen kept self.old) }
        ensures options { self.new.options ≡ self.old.options }
        ensures metadata { self.new.metadata ≤ self.old.metadata + (end - start) }
        ensures bytes { self.new.bytes ≡ self.old.bytes }
    {
        self.frames += 1;
        self.metadata += metadata_between(bytes, start, end);
    }

    // The frame of a number.
    fn frame(&mut self, bytes: &[u8], body: Span, number: u64) -> Result<(), Fault>
        requires inside { IsInside bytes.now body }
        requires few { Fits (2 * (body.len + 1)) self.old }
        ensures comes { TakesFrame bytes.now self.old number (text_of bytes.now body) self.new result }
        ensures options { OnOk result (KeepsOptions bytes.now self.old self.new) }
        ensures few { OnOk result (Grew (2 * (body.len + 1)) self.old self.new) }
        ensures bytes { self.new.bytes ≡ self.old.bytes }
    {
        let start = body.at as usize;
        let end = start + body.len as usize;
        self.add_frame(bytes, start, end);
        self.rows(bytes, start, end, number)
    }

    // The frames of a window.
    fn frames_in(&mut self, bytes: &[u8], frames: &Frames) -> Result<(), Fault>
        requires laid { AreFramesOf bytes.now frames.now }
        requires few { Fits (2 * size_of frames.now) self.old }
        ensures comes { TakesFrames bytes.now self.old frames.now self.new result }
        ensures options { OnOk result (KeepsOptions bytes.now self.old self.new) }
        ensures few { OnOk result (Grew (2 * size_of frames.now) self.old self.new) }
        ensures bytes { self.new.bytes ≡ self.old.bytes }
    {
        for i in 0..frames.count() {
            let body = frames.frame(i);
            let number = frames.first() + i;
            self.frame(bytes, body, number)?;
        }
        Ok(())
    }

    /// One window more of a file, after those before it: what there is in its frames. Where no row was met before, its
    /// first one is the file's, and has the options, which lie in this space. Rows are read and not resolved, so that a
    /// reference to no entry is no fault, nor are options that differ from the first ones. It refuses with the first
    /// fault of the window: of its rows, of the file's first row, or after its frames. After a refusal the survey isn't
    /// used again. Takes no memory.
    pub fn more(&mut self, space: &Space, frames: &Frames) -> Result<(), Fault>
        requires laid { AreFramesOf space.now frames.now }
        requires few { HasRoom (size_of frames.now) self.old }
        ensures comes { TakesWindow space.now self.old frames.now self.new result }
        ensures options { OnOk result (KeepsOptions space.now self.old self.new) }
        ensures few { OnOk result (Grew (2 * size_of frames.now) self.old self.new) }
        ensures bytes { OnOk result (self.new.bytes ≡ self.old.bytes + size_of frames.now) }
    {
        self.frames_in(space.bytes(), frames)?;
        if let Some(fault) = frames.tail() {
            return Err(fault);
        }
        self.bytes += frames.bytes();
        Ok(())
    }
}

/// What there is in a file of which this is the index: a survey of one window. Takes no memory.
pub fn survey(space: &Space, frames: &Frames) -> Result<Survey, Fault>
    requires index { IsIndex space.now frames.now }
    requires short { length space.now < 2 ^ 63 }
    ensures exact { Gives (survey_seen space.now) result (spec.survey space.now) }
    ensures passed { IfOk result (λ s. HaveAllPassed space.now s.options) }
{
    let mut survey = Survey::new();
    survey.more(space, frames)?;
    Ok(survey)
}

//! A source that is surveyed window by window.
ghost use Rattle.std.specs.Prelude.{◌≡◌, ◌+◌, ◌<◌, ◌≤◌, ◌^◌, ℕ, Ok, false, true, length, OnOk};
ghost use Rattle.jl_base.specs.Sources.{Told};
ghost use Rattle.jl_survey.specs.Counting.{AreFew, HaveAllPassed, survey_seen};
ghost use Rattle.jl_survey.specs.Windowed.{ComesTo, HasRoomFor, Surveying, SurveysSource, lies_in, unread};

use crate::numbers::Survey;
use jl_base::{Fault, FillFault, Source, Space};
use jl_frames::Feed;
use std::alloc::{AllocError, Global};

/// Why a source wasn't surveyed.
#[derive(Clone, Copy, Debug)]
pub enum Unsurveyed {
    /// The first fault that keeps the file's rows from being read.
    Malformed(Fault),
    /// The source failed.
    ReadFault,
    /// The source gave more bytes than might be read.
    TooLong,
    NoMemory,
}

/// How many frames a feed may have given before its next window.
const MOST_FRAMES: u64 = 1 << 62;

fn why_unread(fault: FillFault) -> Unsurveyed
    ensures { result ≡ unread fault }
{
    match fault {
        FillFault::ReadFault => Unsurveyed::ReadFault,
        FillFault::TooLong => Unsurveyed::TooLong,
        FillFault::NoMemory => Unsurveyed::NoMemory,
    }
}

// Options that were met in this window lie in its space: their text is brought to one that stays.
fn keep_options(
    survey: &mut Survey,
    had: bool,
    space: &Space,
    kept: &mut Space,
) -> Result<(), AllocError>
    requires { had ≡ false → HaveAllPassed space.now survey.old.options }
    ensures seen { OnOk result (survey_seen kept.new survey.new ≡ survey_seen (lies_in had kept.old space.now) survey.old) }
    ensures passed { OnOk result ((had ≡ true → HaveAllPassed kept.old survey.old.options) → HaveAllPassed kept.new survey.new.options) }
    ensures few { (most : ℕ) → AreFew most survey.old → AreFew most survey.new }
{
    if had {
        return Ok(());
    }
    let Some(options) = survey.options else {
        return Ok(());
    };
    survey.options = Some(options.carry(space, kept)?);
    Ok(())
}

// One window more, in place of the last one's bytes; whether it was the last.
fn take_window<S: Source>(
    survey: &mut Survey,
    source: &mut S,
    feed: &mut Feed,
    left: &mut u64,
    space: &mut Space,
    kept: &mut Space,
) -> Result<bool, Unsurveyed>
    requires going { feed.old.ended ≡ false }
    requires few { HasRoomFor (length feed.old.held) left.old survey.old }
    ensures comes { (before : Told) (limit : ℕ) → Surveying before (S.told source.old) limit left.old feed.old kept.old survey.old → ComesTo before (S.told source.new) limit left.new feed.new kept.new survey.new result }
    ensures going { result ≡ Ok false → feed.new.ended ≡ false }
    ensures few { result ≡ Ok false → HasRoomFor (length feed.new.held) left.new survey.new }
    ensures comes_on { result ≡ Ok false → length feed.new.held + left.new < length feed.old.held + left.old }
{
    if feed.given() > MOST_FRAMES {
        return Err(Unsurveyed::NoMemory);
    }
    space.cut(0);
    let window = match feed.window(source, left, space) {
        Ok(window) => window,
        Err(fault) => return Err(why_unread(fault)),
    };
    let had = survey.options.is_some();
    if let Err(fault) = survey.more(space, &window.frames) {
        return Err(Unsurveyed::Malformed(fault));
    }
    match keep_options(survey, had, space, kept) {
        Ok(()) => Ok(window.last),
        Err(_) => Err(Unsurveyed::NoMemory),
    }
}

/// Surveys a source that is read by windows of this many bytes, or of one frame where that is longer. `left` is how many
/// bytes may still be read; TooLong is that one more was. Malformed is the first fault that keeps the file's rows from
/// being read, and the source needn't be read to its end for it. The text of the answer's options stands in `kept`. Takes
/// memory for one window, the places of its frames and that text.
pub fn survey_source<S: Source>(
    alloc: Global,
    source: &mut S,
    window: u64,
    left: &mut u64,
    kept: &mut Space,
) -> Result<Survey, Unsurveyed>
    requires least { 16 ≤ window }
    requires most { window ≤ 2 ^ 26 }
    requires few { left.old ≤ 2 ^ 60 }
    ensures { SurveysSource (S.told source.old) (S.told source.new) left.old left.new kept.new result }
{
    let mut feed = Feed::new(alloc, window);
    let mut space = Space::new(alloc);
    let mut survey = Survey::new();
    'windows: loop {
        let last = take_window(&mut survey, source, &mut feed, left, &mut space, kept)?;
        if last {
            return Ok(survey);
        }
    }
}

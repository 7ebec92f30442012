//! The head of a file: its first row, and the checks of it.
ghost use Rattle.std.specs.Prelude.{◌≡◌, ◌≤◌, ◌^◌, ◌+◌, [], List, ℕ, None, false, true, IfOk, length, slice_range};
ghost use Rattle.jl_base.specs.Results.{Gives, Reading};
ghost use Rattle.jl_base.specs.declared.place.Fault as faults;
ghost use Rattle.jl_rows.specs.Decoder as spec;
ghost use Rattle.jl_rows.specs.Files.{Placed, fault_at, frames, place_at, rows_then};
ghost use Rattle.jl_rows.specs.Heads.{ArePassed, BeginsWith, HasHead, head_seen};
ghost use Rattle.jl_rows.specs.Seen.{HasRow, options_seen, row_seen};

use crate::frame::next_frame;
use crate::frame_rows::next_row_at;
use crate::options::{GRAPHS, Options, QUADS, TRIPLES};
use crate::row::Row;
use jl_base::{Fault, Kind, Place};

/// What a file begins with. None of its options are `strict` but by `under`.
#[derive(Clone, Copy, Debug)]
pub enum Head {
    /// The file has no rows and no fault.
    Empty,
    /// The options of the first row, which passed their checks, and its place.
    First(Options, Place),
    /// The fault in front of the first row, or its own.
    Bad(Fault),
}

/// How many entries a lookup table may have.
const MOST_ENTRIES: u32 = 65_536;

/// The head of a file with these bytes. It is found without reading further than the first row.
pub fn file_head(bytes: &[u8]) -> Head
    ensures exact { head_seen bytes.now result ≡ spec.head false bytes.now }
    ensures passed { HasHead bytes.now result }
{
    let end = bytes.len();
    let mut at = 0;
    let mut frame: u64 = 1;
    'frames: loop {
        let (start, stop) = match next_frame(bytes, at, end) {
            Ok(Some(body)) => body,
            Ok(None) => return Head::Empty,
            Err(kind) => return bad(frame, 0, kind),
        };
        match next_row_at(bytes, start, stop) {
            Ok(Some((row, _))) => return checked(bytes, frame, row),
            Ok(None) => {
                at = stop;
                frame += 1;
            }
            Err(kind) => return bad(frame, 1, kind),
        }
    }
}

/// What the whole frames between two places begin with, the first of which has this number, whatever follows them.
pub fn head_in(bytes: &[u8], at: usize, end: usize, first: u64) -> Head
    requires start { at ≤ end }
    requires inside { end ≤ length bytes.now }
    requires whole { (frames (slice_range bytes.now at end)).fault ≡ None }
    requires numbers { first ≤ 2 ^ 62 + 1 }
    ensures exact { (B : Reading Placed faults.Fault) → BeginsWith bytes.now (rows_then first (frames (slice_range bytes.now at end)).items B) B result }
    ensures passed { HasHead bytes.now result }
{
    let mut place = at;
    let mut frame = first;
    'frames: loop {
        let (start, stop) = match next_frame(bytes, place, end) {
            Ok(Some(body)) => body,
            Ok(None) => return Head::Empty,
            Err(_) => unreachable!(),
        };
        match next_row_at(bytes, start, stop) {
            Ok(Some((row, _))) => return checked(bytes, frame, row),
            Ok(None) => {
                place = stop;
                frame += 1;
            }
            Err(kind) => return bad(frame, 1, kind),
        }
    }
}

impl Head {
    /// The same head, under the strict profile where that is asked for: its options keep to what they declare, or are
    /// the fault of the first row.
    pub fn under(self, strict: bool) -> Head
        ensures exact { (bytes : List ℕ) → head_seen bytes result ≡ spec.held_to strict (head_seen bytes self) }
        ensures passed { (bytes : List ℕ) → HasHead bytes self → HasHead bytes result }
    {
        if !strict {
            return self;
        }
        let Head::First(options, place) = self else {
            return self;
        };
        match options.strictly() {
            Ok(options) => Head::First(options, place),
            Err(kind) => Head::Bad(Fault { place, kind }),
        }
    }
}

// A fault at a row of a frame, or at row 0, which is the frame itself.
fn bad(frame: u64, row: u32, kind: Kind) -> Head
    ensures { result ≡ Head.Bad (fault_at frame row kind) }
{
    Head::Bad(Fault {
        place: Place { frame, row },
        kind,
    })
}

// The head of a file whose first row is this one, the first of its frame.
fn checked(bytes: &[u8], frame: u64, row: Row) -> Head
    requires { HasRow bytes.now row }
    ensures exact { head_seen bytes.now result ≡ spec.head_checked (place_at frame 1) (spec.first_row_checked (row_seen bytes.now row)) }
    ensures passed { HasHead bytes.now result }
{
    match first_row_checked(bytes, row) {
        Ok(options) => Head::First(options, Place { frame, row: 1 }),
        Err(kind) => bad(frame, 1, kind),
    }
}

// The options of a file's first row, where it has them and they pass their checks.
fn first_row_checked(bytes: &[u8], row: Row) -> Result<Options, Kind>
    requires { HasRow bytes.now row }
    ensures exact { Gives (options_seen bytes.now) result (spec.first_row_checked (row_seen bytes.now row)) }
    ensures passed { IfOk result (ArePassed bytes.now) }
{
    let Row::Options(options) = row else {
        return Err(Kind::NoOptions);
    };
    if options.physical == 0
        || options.physical > GRAPHS
        || options.version == 0
        || options.version > 2
    {
        return Err(Kind::BadOptions);
    }
    if options.names > MOST_ENTRIES
        || options.prefixes > MOST_ENTRIES
        || options.datatypes > MOST_ENTRIES
    {
        return Err(Kind::TableTooLarge);
    }
    Ok(options)
}

// The logical type goes with the physical type.
fn goes_with(options: &Options) -> bool
    ensures { result ≡ spec.goes_with (options_seen [] options.now) }
{
    match options.logical {
        0 => true,
        1 | 3 | 13 => options.physical == TRIPLES,
        2 | 4 | 14 | 114 => options.physical == QUADS || options.physical == GRAPHS,
        _ => false,
    }
}

impl Options {
    /// The options of a first row under the strict profile: SmallNames for a name table of fewer than 8 entries, then
    /// BadLogical for a logical type that doesn't go with the physical type. Takes no memory.
    pub fn strictly(self) -> Result<Options, Kind>
        ensures exact { (bytes : List ℕ) → Gives (options_seen bytes) result (spec.strictly (options_seen bytes self)) }
        ensures kept { IfOk result (λ o. o ≡ record self { strict = true }) }
    {
        if self.names < 8 {
            return Err(Kind::SmallNames);
        }
        if !goes_with(&self) {
            return Err(Kind::BadLogical);
        }
        Ok(Options {
            strict: true,
            ..self
        })
    }
}

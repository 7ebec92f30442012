//! The lines of a piece, one after another.
ghost use Rattle.std.specs.Prelude.{◌≡◌, ◌<◌, ◌≤◌, true, length, slice_index_or};
ghost use Rattle.jl_nqscan.specs.Reading as reading;
ghost use Rattle.jl_nqscan.specs.Scanned.{IsScanned};
ghost use Rattle.jl_nqscan.specs.Stretches as stretches;

use crate::line_scan::{LineScan, one_line, then_told};
use jl_nqread::shape;
use memchr::memchr2;

/// What a piece tells, and how many line feeds stand in it where no line of it is bad.
#[derive(Clone, Copy)]
pub struct Scanned {
    pub feeds: u64,
    pub scan: LineScan,
}

// The place of the byte that ends the line, or the end of the bytes.
fn line_end(bytes: &[u8], from: usize) -> usize
    requires { from ≤ length bytes.now }
    ensures stretch { stretches.IsStretch bytes.now from result }
    ensures order { from ≤ result }
    ensures inside { result ≤ length bytes.now }
    ensures ends { result < length bytes.now → reading.ends_line (slice_index_or bytes.now result 0) ≡ true }
{
    match memchr2(b'\n', b'\r', &bytes[from..]) {
        Some(n) => from + n,
        None => bytes.len(),
    }
}

// How many line feeds stand at a place: one or none.
fn feed(bytes: &[u8], at: usize) -> u64
    ensures exact { result ≡ stretches.feed_at bytes.now at }
    ensures few { result ≤ 1 }
{
    if at < bytes.len() && bytes[at] == b'\n' {
        1
    } else {
        0
    }
}

/// What the lines of a piece tell, numbered from 1.
pub fn scan_piece(piece: &[u8]) -> Scanned
    ensures { IsScanned piece.now result.feeds result.scan }
{
    let mut feeds: u64 = 0;
    let mut scan = LineScan {
        statements: 0,
        quads: false,
        bad: None,
    };
    let mut at = 0;
    'lines: while at < piece.len() {
        let end = line_end(piece, at);
        let line = one_line(shape(&piece[at..end]), feeds + 1);
        scan = then_told(scan, line);
        if scan.bad.is_some() {
            return Scanned { feeds, scan };
        }
        feeds += feed(piece, end);
        at = end + 1;
    }
    Scanned { feeds, scan }
}

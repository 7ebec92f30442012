//! A text cut at line feeds, and its pieces scanned side by side.
ghost use Rattle.std.specs.Prelude.{◌≡◌, ◌+◌, ◌<◌, ◌≤◌, ◌^◌, IfSome, Ok, length, slice_index_or};
ghost use Rattle.std.specs.Thread.{IsSync};
ghost use Rattle.jl_nqscan.specs.Reading.{read};
ghost use Rattle.jl_nqscan.specs.Scanning as spec;
ghost use Rattle.jl_nqscan.specs.Scanned.{IsScanned};

use crate::LineScan;
use crate::line_scan::{later, then_told};
use crate::piece::{Scanned, scan_piece};
use jl_base::Space;
use std::alloc::AllocError;
use std::thread::{Threads, join};

// The place of the first line feed from a place on.
fn line_feed(bytes: &[u8], from: usize) -> Option<usize>
    ensures { IfSome result (λ at. (at < length bytes.now) × (slice_index_or bytes.now at 0 ≡ 10)) }
{
    let mut at = from;
    'search: while at < bytes.len() {
        if bytes[at] == b'\n' {
            return Some(at);
        }
        at += 1;
    }
    None
}

// What two parts tell between which one line feed stands.
fn joined(a: Scanned, b: Scanned) -> Scanned
    requires feeds { a.feeds + 1 + b.feeds < 2 ^ 64 }
    requires statements { a.scan.statements + b.scan.statements < 2 ^ 64 }
    requires bad { IfSome b.scan.bad (λ number. a.feeds + 1 + number < 2 ^ 64) }
    ensures feeds { result.feeds ≡ a.feeds + 1 + b.feeds }
    ensures scan { result.scan ≡ spec.then_told a.scan (spec.later (a.feeds + 1) b.scan) }
{
    Scanned {
        feeds: a.feeds + 1 + b.feeds,
        scan: then_told(a.scan, later(a.feeds + 1, b.scan)),
    }
}

// Where some of the workers leave a text to the others, before a line feed is looked for.
fn share(len: usize, some: u32, workers: u32) -> usize
    requires { 0 < workers }
{
    (len / workers as usize).saturating_mul(some as usize)
}

// Half of the workers, of which there are several, scan what stands before a line feed, and the others what stands after it.
#[cycle(parts)]
fn scan_part<R: Threads + Sync>(rt: &R, text: &[u8], workers: u32) -> Scanned
    requires { 0 < workers }
    ensures { IsScanned text.now result.feeds result.scan }
{
    if workers == 1 {
        return scan_piece(text);
    }
    let some = workers / 2;
    let others = workers - some;
    let Some(at) = line_feed(text, share(text.len(), some, workers)) else {
        return scan_piece(text);
    };
    let front = &text[..at];
    let back = &text[at + 1..];
    let left = move || -> Scanned
        requires { IsSync R.row × (0 < some) }
        ensures { IsScanned front.entry.now result.feeds result.scan }
    { scan_part(rt, front, some) };
    let right = move || -> Scanned
        requires { IsSync R.row × (0 < others) }
        ensures { IsScanned back.entry.now result.feeds result.scan }
    { scan_part(rt, back, others) };
    let (a, b) = join(rt, left, right);
    joined(a, b)
}

/// Scans a text of N-Quads: how many statements stand before its first bad line, whether one of them has a graph, and that
/// line's number. The text is cut at line feeds into as many pieces as there are workers, from 1 to 64, which are of nearly
/// the same length; each is scanned in a thread of its own, or in turn where the system gives no thread. The answer is the
/// same for any number of workers. Takes no memory but what threads take, and never fails.
pub fn scan_lines<R: Threads + Sync>(
    rt: &R,
    space: &Space,
    workers: u32,
) -> Result<LineScan, AllocError>
    requires { (0 < workers) × (workers ≤ 64) }
    ensures { result ≡ Ok (spec.told (read space.now)) }
{
    Ok(scan_part(rt, space.bytes(), workers).scan)
}

//! A wave that several workers share: what they make of its runs is given to a sink in the order of the runs.
ghost use Rattle.std.specs.Prelude.{◌≡◌, ◌+◌, ◌<◌, ◌≤◌, ◌^◌, [], All, IfOk, OnOk, vec_len};
ghost use Rattle.jl_base.specs.Results.{Reading};
ghost use Rattle.jl_base.specs.declared.place.Fault as faults;
ghost use Rattle.jl_rows.specs.Files.{Placed};
ghost use Rattle.jl_frames.specs.Index.{behind};
ghost use Rattle.jl_frames.specs.Stretches.{between};
ghost use Rattle.jl_scan.specs.Fields.{IsStateOf, before};
ghost use Rattle.jl_scan.specs.Files.{IsFile};
ghost use Rattle.jl_lines.specs.Kept.{Keeps};
ghost use Rattle.jl_lines.specs.Going.{counted, outcome};
ghost use Rattle.jl_lines.specs.Giving.{Delivers, Gives, outlet};
ghost use Rattle.jl_decode.specs.Pieces.{counts_with, lines_of};

use crate::piece::{LineTools, LineWork, Written};
use jl_base::{Sink, write_all};
use jl_drive::{Gate, Piece};
use jl_lines::{Broken, Counts, Decoding};
use jl_scan::{Scan, Scanned};
use jl_wave::{Kept, Waved, drive_wave};
use std::alloc::{AllocError, Global};
use std::thread::Threads;

// Gives a sink a piece's lines.
fn write_piece<K: Sink>(piece: &Piece<Written>, out: &mut K) -> Result<(), Broken>
    ensures { Gives piece.now.made.page.lines (outlet K.held K.faults out.old) (outlet K.held K.faults out.new) result }
{
    match write_all(out, piece.made.page.lines()) {
        Ok(()) => Ok(()),
        Err(_) => Err(Broken::WriteFault),
    }
}

// Gives a sink the lines of all pieces, one piece after another.
fn write_pieces<K: Sink>(pieces: &[Piece<Written>], out: &mut K) -> Result<(), Broken>
    ensures { Gives (lines_of pieces.now) (outlet K.held K.faults out.old) (outlet K.held K.faults out.new) result }
{
    let mut left = pieces;
    'by_piece: while let Some((piece, rest)) = left.split_first() {
        write_piece(piece, out)?;
        left = rest;
    }
    Ok(())
}

// These counts with those of all pieces.
fn count_pieces(pieces: &[Piece<Written>], counts: Counts) -> Counts
    requires few { (counts_with counts pieces.now).statements + (counts_with counts pieces.now).namespaces < 2 ^ 64 }
    ensures { result ≡ counts_with counts pieces.now }
{
    let mut all = counts;
    let mut left = pieces;
    'to_count: while let Some((piece, rest)) = left.split_first() {
        all = Counts {
            statements: all.statements + piece.made.counts.statements,
            namespaces: all.namespaces + piece.made.counts.namespaces,
        };
        left = rest;
    }
    all
}

// Gives the pages back to the workers who wrote them.
fn give_back(
    mut pieces: Vec<Piece<Written>>,
    kept: &mut Vec<Kept<LineTools>>,
) -> Result<(), AllocError>
    requires { All (λ p. p.worker < vec_len kept.old) pieces.items }
    ensures { vec_len kept.new ≡ vec_len kept.old }
{
    while let Some(piece) = pieces.pop() {
        let worker = piece.worker as usize;
        kept[worker].tools.pages.push(piece.made.page)?;
    }
    Ok(())
}

/// The items of a scan's runs, by as many workers as there are of `kept`. All that is written of them is given to a sink.
/// Takes memory for the wave's summaries and pieces, and for lines where no page has room for them.
pub(crate) fn deliver_wave<R: Threads + Sync, F: Scanned + Send + Sync, K: Sink, G: Gate>(
    rt: &R,
    alloc: Global,
    scan: &Scan<'_, F>,
    decoding: &mut Decoding,
    kept: Vec<Kept<LineTools>>,
    gate: &G,
    out: &mut K,
) -> Result<Vec<Kept<LineTools>>, Broken>
    requires file { IsFile scan.now.file }
    requires state { IsStateOf F.field decoding.old.state }
    requires workers { (0 < vec_len kept) × (vec_len kept ≤ 64) }
    requires empty { decoding.old.page.lines ≡ [] }
    requires few { counted decoding.old ≤ 2 ^ 61 }
    ensures comes { (B : Reading Placed faults.Fault) → Delivers (outcome F.field.bytes decoding.old (between F.field.bytes F.field.index (before F.field 0) (before F.field scan.now.runs) B)) (outlet K.held K.faults out.old) (outlet K.held K.faults out.new) (λ _. outcome F.field.bytes decoding.new B) result }
    ensures empty { OnOk result (decoding.new.page.lines ≡ []) }
    ensures few { OnOk result (counted decoding.new + behind F.field.index (before F.field 0) ≤ counted decoding.old + behind F.field.index (before F.field scan.now.runs)) }
    ensures kept { OnOk result (Keeps F.field.bytes decoding.new) }
    ensures state { OnOk result (IsStateOf F.field decoding.new.state) }
    ensures workers { IfOk result (λ k. vec_len k ≡ vec_len kept) }
{
    let work = LineWork {
        writing: decoding.writing,
    };
    let waved = drive_wave(rt, alloc, scan, &mut decoding.state, &work, kept, gate);
    let Ok(
        Waved {
            pieces,
            mut kept,
            fault,
        },
    ) = waved
    else {
        return Err(Broken::NoMemory);
    };
    write_pieces(&pieces, out)?;
    if let Some(fault) = fault {
        return Err(Broken::Malformed(fault));
    }
    decoding.counts = count_pieces(&pieces, decoding.counts);
    decoding.page.clear();
    match give_back(pieces, &mut kept) {
        Ok(()) => Ok(kept),
        Err(_) => Err(Broken::NoMemory),
    }
}

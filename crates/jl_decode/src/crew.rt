//! What the workers of a file have from its first wave on.
ghost use Rattle.std.specs.Prelude.{◌≡◌, IfOk, vec_len};
ghost use Rattle.jl_rows.specs.Heads.{ArePassed};

use crate::piece::LineTools;
use jl_lines::{Decoding, Writing};
use jl_rows::Options;
use jl_state::State;
use jl_tape::Tape;
use jl_wave::Kept;
use std::alloc::{AllocError, Global};

// A worker's own things. Its states are changed before they are read.
fn seat(
    alloc: Global,
    bytes: &[u8],
    options: &Options,
    writing: Writing,
) -> Result<Kept<LineTools>, AllocError>
    requires { ArePassed bytes.now options.now }
{
    let state = State::opening(alloc, bytes, options)?;
    let decoding = Decoding::opening(alloc, bytes, options, writing)?;
    let pages = Vec::new(alloc);
    let tools = LineTools { decoding, pages };
    let tape = Tape::new(alloc);
    Ok(Kept { state, tape, tools })
}

/// So many workers' things. Each worker has two states' tables, eight bytes for each slot that the options allow.
pub(crate) fn crew(
    alloc: Global,
    bytes: &[u8],
    options: &Options,
    writing: Writing,
    workers: u32,
) -> Result<Vec<Kept<LineTools>>, AllocError>
    requires { ArePassed bytes.now options.now }
    ensures { IfOk result (λ kept. vec_len kept ≡ workers) }
{
    let mut kept = Vec::new(alloc);
    for _i in 0..workers {
        kept.push(seat(alloc, bytes, options, writing)?)?;
    }
    Ok(kept)
}

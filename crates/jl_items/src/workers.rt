//! What the workers of a wave have to themselves.
ghost use Rattle.std.specs.Prelude.{◌≡◌, IfOk, vec_len};

use jl_base::Items;
use jl_state::State;
use jl_tape::Tape;
use jl_wave::Kept;
use std::alloc::{AllocError, Global};

// One worker's own things.
fn seat(alloc: Global, state: &State) -> Result<Kept<Items>, AllocError> {
    let state = state.copy(alloc)?;
    let tape = Tape::new(alloc);
    let tools = Items::new(alloc);
    Ok(Kept { state, tape, tools })
}

/// So many workers' things. Each worker has a copy of the state, whose slots it uses for the states of its runs.
pub(crate) fn workers_of(
    alloc: Global,
    state: &State,
    workers: u32,
) -> Result<Vec<Kept<Items>>, AllocError>
    ensures { IfOk result (λ kept. vec_len kept ≡ workers) }
{
    let mut kept = Vec::new(alloc);
    for _i in 0..workers {
        kept.push(seat(alloc, state)?)?;
    }
    Ok(kept)
}

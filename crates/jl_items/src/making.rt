//! What is made of a run's items, from the tape of its rows.
ghost use Rattle.std.specs.Prelude.{◌≡◌, ◌≤◌, length, IfOk};
ghost use Rattle.jl_base.specs.Limits.{most_bytes};
ghost use Rattle.jl_resolve.specs.Taking.{said};
ghost use Rattle.jl_state.specs.Lawful.{IsLawful};
ghost use Rattle.jl_tape.specs.Tapes.{HasRows};
ghost use Rattle.jl_wave.specs.Tapes.{Ends, stated};
ghost use Rattle.jl_items.specs.Items.{of_items};

use jl_base::{Fault, Items};
use jl_resolve::{Maker, resolve_tape};
use jl_state::State;
use jl_tape::Tape;
use jl_wave::Making;
use std::alloc::{AllocError, Global};

/// What a `Maker` makes of the items of runs. A worker uses one list of items for all its runs.
#[derive(Drop)]
pub struct MakerWork<'m, M: Maker> {
    pub maker: &'m M,
}

// The items of a tape's rows and no others, from a state, which is brought over them; and their first fault.
fn take_items(
    alloc: Global,
    bytes: &[u8],
    tape: &Tape,
    fault: Option<Fault>,
    state: &mut State,
    items: &mut Items,
) -> Result<Option<Fault>, AllocError>
    requires lawful { IsLawful bytes.now state.old }
    requires short { length bytes.now ≤ most_bytes }
    requires rows { HasRows bytes.now tape.now }
    ensures said { IfOk result (λ found. stated bytes.now state.old tape.now fault ≡ said items.new found) }
    ensures ends { IfOk result (λ found. Ends bytes.now state.old state.new tape.now fault found) }
{
    items.clear();
    let found = resolve_tape(alloc, bytes, tape, fault, state, items)?;
    Ok(found)
}

impl<'m, M: Maker> Making for MakerWork<'m, M> {
    type Tools = Items;

    type Made = M::Out;

    ghost makes = { λ work. of_items (M.makes work.maker.now) };

    fn make(
        &self,
        alloc: Global,
        bytes: &[u8],
        tape: &Tape,
        fault: Option<Fault>,
        tools: &mut Items,
        state: &mut State,
    ) -> Result<(M::Out, Option<Fault>), AllocError> {
        let maker = self.maker;
        let found = take_items(alloc, bytes, tape, fault, state, tools)?;
        let made = maker.make(&*tools)?;
        Ok((made, found))
    }
}

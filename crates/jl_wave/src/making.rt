//! What is made of the rows of a run.
ghost use Rattle.std.specs.Prelude.{◌≡◌, ◌≤◌, ◌^◌, length, IfOk};
ghost use Rattle.jl_base.specs.Limits.{most_bytes};
ghost use Rattle.jl_base.specs.Results.{Reading};
ghost use Rattle.jl_base.specs.Terms.{Item};
ghost use Rattle.jl_base.specs.declared.place.Fault.{Fault};
ghost use Rattle.jl_state.specs.Lawful.{IsLawful};
ghost use Rattle.jl_tape.specs.Tapes.{HasRows};
ghost use Rattle.jl_wave.specs.Tapes.{Ends, stated};

use jl_base::Fault;
use jl_state::State;
use jl_tape::Tape;
use std::alloc::{AllocError, Global};

/// What is made of a run's rows when the state before them is known, such as a page of lines. Several workers share it.
pub trait Making {
    /// What a worker uses again and again.
    type Tools: Drop;

    /// What comes of a run.
    type Made: Drop;

    /// This may be made of what a run's rows state.
    ghost makes: { Self → Reading Item Fault → Self.Made → Type 0 };

    /// What is made of the rows on a tape and of the fault that ends them, if there is one. The state is brought over the
    /// rows; after their first fault, which is answered, it is of no use.
    fn make(
        &self,
        alloc: Global,
        bytes: &[u8],
        tape: &Tape,
        fault: Option<Fault>,
        tools: &mut Self::Tools,
        state: &mut State,
    ) -> Result<(Self::Made, Option<Fault>), AllocError>
        requires lawful { IsLawful bytes.now state.old }
        requires short { length bytes.now ≤ most_bytes }
        requires rows { HasRows bytes.now tape.now }
        requires few { length tape.now ≤ 2 ^ 61 }
        ensures made { IfOk result (λ r. makes self.now (stated bytes.now state.old tape.now fault) r.0) }
        ensures ends { IfOk result (λ r. Ends bytes.now state.old state.new tape.now fault r.1) };
}

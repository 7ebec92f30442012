//! What is made of a run's rows, from their tape, where the state before them is known: lines, or only counts.
ghost use Rattle.std.specs.Prelude.{◌≡◌, ◌≤◌, ◌^◌, IfOk, MatchOption, Ok, Err, length, vec_len};
ghost use Rattle.jl_base.specs.Limits.{most_bytes};
ghost use Rattle.jl_rows.specs.Seen.{options_seen};
ghost use Rattle.jl_state.specs.Lawful.{state_seen, IsLawful};
ghost use Rattle.jl_state.specs.Running.{after_reading, run_on};
ghost use Rattle.jl_tape.specs.Tapes.{HasRows, reading_of};
ghost use Rattle.jl_decode.specs.Pieces.{IsWritten};

use jl_base::Fault;
use jl_lines::{Counts, Decoding, Page, Refused, Writing};
use jl_state::State;
use jl_tape::Tape;
use jl_wave::Making;
use std::alloc::{AllocError, Global};
use std::mem;

/// What is written of runs, from their tapes. It takes memory for lines only where no page has room for them.
#[derive(Clone, Copy, Debug)]
pub struct LineWork {
    pub writing: Writing,
}

/// What is written of a run's items, and how many they are.
#[derive(Debug, Drop)]
pub struct Written {
    pub page: Page,
    pub counts: Counts,
}

/// What a worker uses again for each run: a decoding, whose own state stands aside while it works on another one, and
/// pages whose memory is used for further ones.
#[derive(Debug, Drop)]
pub struct LineTools {
    pub decoding: Decoding,
    pub pages: Vec<Page>,
}

// The rows of a tape, from the decoding's state on and up to their fault, which is answered.
fn write_tape(
    decoding: &mut Decoding,
    alloc: Global,
    bytes: &[u8],
    tape: &Tape,
    fault: Option<Fault>,
) -> Result<Option<Fault>, AllocError>
    requires lawful { IsLawful bytes.now decoding.old.state }
    requires short { length bytes.now ≤ most_bytes }
    requires rows { HasRows bytes.now tape.now }
    requires few { length tape.now ≤ 2 ^ 61 }
    ensures made { IfOk result (λ _. IsWritten decoding.old.writing (run_on (options_seen bytes.now decoding.old.state.options) (state_seen bytes.now decoding.old.state) (reading_of bytes.now tape.now fault)) (record { page = decoding.new.page; counts = decoding.new.counts })) }
    ensures ends { IfOk result (λ r. MatchOption r
        ((after_reading (options_seen bytes.now decoding.old.state.options) (state_seen bytes.now decoding.old.state) (reading_of bytes.now tape.now fault) ≡ Ok (state_seen bytes.now decoding.new.state)) × IsLawful bytes.now decoding.new.state)
        (λ f. after_reading (options_seen bytes.now decoding.old.state.options) (state_seen bytes.now decoding.old.state) (reading_of bytes.now tape.now fault) ≡ Err f)) }
    ensures options { decoding.new.state.options ≡ decoding.old.state.options }
{
    decoding.restart();
    match decoding.taped(alloc, bytes, tape, fault) {
        Ok(()) => Ok(None),
        Err(Refused::Malformed(found)) => Ok(Some(found)),
        Err(Refused::NoMemory) => Err(AllocError),
    }
}

// A page to be used again, or a new one.
fn spare(alloc: Global, pages: &mut Vec<Page>) -> Page
    ensures { vec_len pages.new ≤ vec_len pages.old }
{
    match pages.pop() {
        Some(page) => page,
        None => Page::new(alloc),
    }
}

impl Making for LineWork {
    type Tools = LineTools;

    type Made = Written;

    ghost makes = { λ work said made. IsWritten work.writing said made };

    fn make(
        &self,
        alloc: Global,
        bytes: &[u8],
        tape: &Tape,
        fault: Option<Fault>,
        tools: &mut LineTools,
        state: &mut State,
    ) -> Result<(Written, Option<Fault>), AllocError> {
        let decoding = &mut tools.decoding;
        mem::swap(state, &mut decoding.state);
        decoding.writing = self.writing;
        let ended = write_tape(decoding, alloc, bytes, tape, fault);
        mem::swap(state, &mut decoding.state);
        let found = ended?;
        let page = decoding.change_page(spare(alloc, &mut tools.pages));
        let counts = decoding.counts;
        Ok((Written { page, counts }, found))
    }
}

//! A wave of items from end to end.
ghost use Rattle.std.specs.Prelude.{◌≡◌, ◌<◌, ◌≤◌, IfOk, OnOk};
ghost use Rattle.jl_scan.specs.Fields.{IsStateOf, seen};
ghost use Rattle.jl_scan.specs.Files.{IsFile};
ghost use Rattle.jl_wave.specs.Waves.{AreMade, Leaves};
ghost use Rattle.jl_items.specs.Items.{EndsWave, of_items};

use crate::making::MakerWork;
use crate::workers::workers_of;
use jl_base::Fault;
use jl_drive::{Gate, Piece};
use jl_resolve::Maker;
use jl_scan::{Scan, Scanned};
use jl_state::State;
use jl_wave::{Waved, drive_wave};
use std::alloc::{AllocError, Global};
use std::thread::Threads;

/// What was made of a wave's items.
#[derive(Drop)]
pub struct Driven<T: Drop> {
    /// In the order of their runs, up to and with the first that has a fault. Runs count from the scan's first one.
    pub pieces: Vec<Piece<T>>,
    /// The state after the scan's runs, exactly where none of them has a fault.
    pub after: Option<State>,
    /// The first fault of the scan's runs.
    pub fault: Option<Fault>,
}

/// Makes something of the items of each of the scan's runs, with so many workers, from the state before the first of them.
/// What a piece holds is made of the items that its run's rows state before their first fault, also where there is one.
/// Workers are numbered from 0, and no thread is made for one that is alone.
///
/// Each worker takes memory for two states, the tape of a run's rows and the items of a run; besides, there are a copy of
/// the state, the pieces, and what the workers tell each other of the runs. Want of memory, or a maker that finds none, is
/// the only error: it leaves nothing of what was made, and the scan's cells with what was put there, which stays true.
pub fn drive_items<R: Threads + Sync, F: Scanned + Send + Sync, M: Maker, G: Gate>(
    rt: &R,
    alloc: Global,
    scan: &Scan<'_, F>,
    from: &State,
    maker: &M,
    workers: u32,
    gate: &G,
) -> Result<Driven<M::Out>, AllocError>
    requires file { IsFile scan.now.file }
    requires state { IsStateOf F.field from.now }
    requires workers { (0 < workers) × (workers ≤ 64) }
    ensures made { IfOk result (λ d. AreMade F.field (seen F.field from.now) (of_items (M.makes maker.now)) scan.now.runs workers d.pieces.items d.fault) }
    ensures ends { IfOk result (λ d. EndsWave F.field scan.now.runs from.now d.after d.fault) }
{
    let kept = workers_of(alloc, from, workers)?;
    let mut state = from.copy(alloc)?;
    let work = MakerWork { maker };
    let Waved {
        pieces,
        kept: _,
        fault,
    } = drive_wave(rt, alloc, scan, &mut state, &work, kept, gate)?;
    match fault {
        Some(_) => Ok(Driven {
            pieces,
            after: None,
            fault,
        }),
        None => Ok(Driven {
            pieces,
            after: Some(state),
            fault,
        }),
    }
}

//! The program as one call.
ghost use Rattle.std.specs.Prelude.{◌≡◌, ℕ, ◌+◌, ◌<◌, ◌≤◌, ◌↔◌, ◌⊎◌, List, length, None};
ghost use Rattle.jl_base.specs.Causes.{Rose};
ghost use Rattle.jl_base.specs.SourceLists.{ReadsEach, LeftEach, RoseAt, SteadyEach, total};
ghost use Rattle.jl_base.specs.declared.place.Fault.{Fault};
ghost use Rattle.jl_text.specs.Notices.{notice_line};
ghost use Rattle.jl_words.specs.declared.command.Job.{Job};
ghost use Rattle.jl_words.specs.Jobs.{job_of, files_of};
ghost use Rattle.jl_top.specs.Goals.{Ending, goal};
ghost use Rattle.jl_base.specs.Limits.{most_bytes};
ghost use Rattle.jl_top.specs.Running.{status_of};
ghost use Rattle.jl_top.specs.Serve.{Reaches, Begins, Tells, NoneRose, ending_status, status_on};

use crate::Gate;
use crate::run::run;
use jl_base::{Shelf, Sink, Source, Text, write_all};
use jl_text::{Notice, report_fault};
use std::alloc::Global;
use std::thread::Threads;

fn status(notice: Notice) -> u8
    ensures { result ≡ status_of notice }
{
    match notice {
        Notice::Malformed { .. } => 1,
        Notice::Usage => 2,
        Notice::ReadFault { .. } => 3,
        Notice::WriteFault => 4,
        Notice::NoMemory => 5,
        Notice::TooLong => 6,
        Notice::TooWide { .. } => 8,
    }
}

// Writes the notice's line. A failure there is nobody's to tell.
fn tell<E: Sink>(err: &mut E, notice: Notice)
    ensures tells { Tells E.held E.faults err.old err.new (notice_line notice) }
    ensures later { E.faults err.old ≤ E.faults err.new }
{
    let _ = write_all(err, report_fault(notice).bytes());
}

/// Does all that the program does, and answers its exit status. There is a source for each file that the words name.
pub fn serve<R: Threads + Sync, S: Source, K: Shelf, E: Sink, G: Gate>(
    rt: &R,
    alloc: Global,
    words: &[Text],
    sources: &mut Vec<S>,
    out: &mut K,
    err: &mut E,
    gate: &G,
) -> u8
    requires { length sources.old.items ≡ length (files_of words.now (job_of words.now)) }

    // 0: the input was read whole, and exactly the goal was written.
    ensures done { result ≡ 0
        → Reaches S.told K.held (job_of words.now) sources.old.items sources.new.items out.old out.new Ending.Done
        × (err.new ≡ err.old) }

    // 1: the same, up to the first fault, whose file, frame and row are told.
    ensures malformed { result ≡ 1 → (file : ℕ) × (fault : Fault)
        × Reaches S.told K.held (job_of words.now) sources.old.items sources.new.items out.old out.new (Ending.Malformed file fault)
        × Tells E.held E.faults err.old err.new (notice_line (Notice.Malformed file fault)) }

    // 2: exactly where the words ask for nothing.
    ensures usage { (result ≡ 2) ↔ (job_of words.now ≡ None) }
    ensures usage_leaves { result ≡ 2 → (sources.new.items ≡ sources.old.items) × (out.new ≡ out.old)
        × Tells E.held E.faults err.old err.new (notice_line Notice.Usage) }

    // 3: only where a source failed, before anything was written. Files are told from 1.
    ensures read_fault { result ≡ 3 → (n : ℕ) × RoseAt S.told sources.old.items sources.new.items n × (out.new ≡ out.old)
        × Tells E.held E.faults err.old err.new (notice_line (Notice.ReadFault (n + 1))) }

    // 4: only where the shelf failed, after a prefix of the output.
    ensures write_fault { result ≡ 4 → Rose (K.faults out.old) (K.faults out.new)
        × Begins S.told K.held (job_of words.now) sources.old.items sources.new.items out.old out.new
        × Tells E.held E.faults err.old err.new (notice_line Notice.WriteFault) }

    // 5: after nothing was written, or a prefix of the output.
    ensures no_memory { result ≡ 5
        → ((out.new ≡ out.old) ⊎ Begins S.told K.held (job_of words.now) sources.old.items sources.new.items out.old out.new)
        × Tells E.held E.faults err.old err.new (notice_line Notice.NoMemory) }

    // 6: exactly where more than 2^30 bytes were read of all sources.
    ensures too_long { (read : List (List ℕ)) × ReadsEach S.told sources.old.items sources.new.items read × ((result ≡ 6) ↔ (most_bytes < total read)) }
    ensures too_long_leaves { result ≡ 6 → (out.new ≡ out.old)
        × Tells E.held E.faults err.old err.new (notice_line Notice.TooLong) }

    // A source's count of faults rises only where the status is 3, and the shelf's only where it is 4.
    ensures sources_steady { (result ≡ 3 → ⊥) → SteadyEach S.told sources.old.items sources.new.items }
    ensures shelf_steady { (result ≡ 4 → ⊥) → K.faults out.new ≡ K.faults out.old }

    // There is no other status, and below 2 it is the goal's.
    ensures known { result ≤ 6 }
    ensures exact { (job : Job) → (files : List (List ℕ)) → job_of words.now ≡ Some job → LeftEach S.told sources.old.items files
        → result < 2 → result ≡ ending_status (goal job files).ending }

    // Where no device fails the input alone decides, unless memory isn't found.
    ensures complete { (job : Job) → (files : List (List ℕ)) → job_of words.now ≡ Some job → LeftEach S.told sources.old.items files
        → NoneRose S.told K.faults sources.old.items sources.new.items out.old out.new
        → (result ≡ status_on job files) ⊎ (result ≡ 5) }

    ensures number { length sources.new.items ≡ length sources.old.items }
    ensures faults { (K.faults out.old ≤ K.faults out.new) × (E.faults err.old ≤ E.faults err.new) }
{
    match run(rt, alloc, words, sources, out, gate) {
        Ok(()) => 0,
        Err(notice) => {
            tell(err, notice);
            status(notice)
        }
    }
}

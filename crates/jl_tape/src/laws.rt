//! How the rows of runs make up those of more frames: laws, each the contract of a function that does nothing.
ghost use Rattle.jl_tape.specs.Runs.{FramesAreFile, PlannedRuns, RunThen, RunsCover};

/// Each run of a plan is one of the index's frames, and its places are where they begin and end.
pub fn planned_runs()
    ensures { PlannedRuns }
{}

/// The rows of the frames from a run's first on are the run's, and then those of the frames after it, whatever follows
/// these.
pub fn run_then()
    ensures { RunThen }
{}

/// The rows of frames that some runs cover are those of the runs, one run after another, whatever follows.
pub fn runs_cover()
    ensures { RunsCover }
{}

/// The rows of a file are those of all frames of its index, and then the fault after them.
pub fn frames_are_file()
    ensures { FramesAreFile }
{}

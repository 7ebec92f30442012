//! What holds of blocks, walks and runs, for all of them: laws, each the contract of a function that does nothing.
ghost use Rattle.jl_scan.specs.FieldLaws.{FilesAreFields, FramesAddUp, FramesAreFew, NoRuns, RunsInTurn, RunsLead};
ghost use Rattle.jl_scan.specs.Laws.{CellsApart, CellsFilled, CellsWithin, CostIsWithin, CostSpares, CostsAreWithin, EdgeIsPower, WalkGoes, WalkIsShort};

/// Block k of a level begins at k times two to the power of the level.
pub fn edges()
    ensures { EdgeIsPower }
{}

/// A walk begins at its first run with the longest aligned block that begins there and ends at most at the walk's last
/// run, goes on from that block's end in the same way, and ends at its last run. Where that lies below 2^d, it has at
/// most 2d blocks.
pub fn walks()
    ensures goes { WalkGoes }
    ensures short { WalkIsShort }
{}

/// Each block of at most 2^32 runs has a cell below `blocks`, no two blocks have one cell, and each cell below `blocks`
/// is a block's.
pub fn cells()
    ensures within { CellsWithin }
    ensures apart { CellsApart }
    ensures filled { CellsFilled }
{}

/// Walking from one run to another costs at most the frames of the runs between them, whatever is at hand, and nothing
/// for a run in a block that is at hand inside of a block of the walk. Walks of which none begins before the last one's
/// end cost together at most the frames from the first one's begin to the last one's end.
pub fn costs()
    ensures within { CostIsWithin }
    ensures spares { CostSpares }
    ensures again { CostsAreWithin }
{}

/// An indexed and planned file, from a run on, is what runs are counted in. No runs do nothing to a state; more of them
/// do what the first ones do and then the others; and from a state that stands for a history they lead to what the
/// decoder finds in their rows after it: the first fault, or a state that stands for the longer history.
pub fn runs()
    ensures fields { FilesAreFields }
    ensures none { NoRuns }
    ensures turns { RunsInTurn }
    ensures leads { RunsLead }
{}

/// The frames of the first runs, added up, are those that stand before the next run, and so they are never more than a
/// file may have bytes.
pub fn frames()
    ensures add { FramesAddUp }
    ensures few { FramesAreFew }
{}

//! What holds of states and steps, for all of them: laws, each the contract of a function that does nothing.
ghost use Rattle.jl_state.specs.Running.{RunsDecode};
ghost use Rattle.jl_state.specs.Stands.{StepsFollow, OpeningStands};

/// From each state that stands for a history, a step answers what the definition of the row says after that history:
/// the same fault, or the same items and a state that stands for the history with the row.
pub fn steps_follow()
    ensures { StepsFollow }
{}

/// The opening state stands for no rows.
pub fn opening_stands()
    ensures { OpeningStands }
{}

/// From a state that stands for a history, the run of steps over further rows gives what the decoder gives after that
/// history: the same items, and the same first fault at its place.
pub fn runs_decode()
    ensures { RunsDecode }
{}

//! What holds of windows: laws, each the contract of a function that does nothing.
ghost use Rattle.jl_frames.specs.Windows.{WindowsJoin};
ghost use Rattle.jl_frames.specs.Following.{GoesOn, TakesNext};

/// The frames of a file's windows, joined, are the file's, and the fault of the last one's tail is the file's.
pub fn windows_join()
    ensures { WindowsJoin }
{}

/// A file goes on from one window of a feed to the next, and ends with the last one.
pub fn windows_follow()
    ensures { GoesOn }
{}

/// On a source that tells its bytes, a feed's window is the definition's next one.
pub fn window_is_next()
    ensures { TakesNext }
{}

use crate::Kind;

/// A run of bytes: where the first of them stands, counted from 0, and how many they are.
#[derive(Clone, Copy, Debug, PartialEq, Eq)]
pub struct Span {
    pub at: u64,
    pub len: u32,
}

/// A place in a file: the frame, counted from 1, and the row in it, one more than the rows that were read whole
/// before it in that frame. Row 0 is the frame itself: its length, or its end.
#[derive(Clone, Copy, Debug, PartialEq, Eq)]
pub struct Place {
    pub frame: u64,
    pub row: u32,
}

/// A fault and where it is.
#[derive(Clone, Copy, Debug, PartialEq, Eq)]
pub struct Fault {
    pub place: Place,
    pub kind: Kind,
}

/// A run of whole frames: the place of the first one's length, the place after the last one, the number of the first
/// frame, counted from 1, and how many they are.
#[derive(Clone, Copy, Debug, PartialEq, Eq)]
pub struct Run {
    pub lo: u64,
    pub hi: u64,
    pub first_frame: u64,
    pub frames: u64,
}

/// A device failed. It counted that.
#[derive(Clone, Copy, Debug, PartialEq, Eq)]
pub struct Failed;

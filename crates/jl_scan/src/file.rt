//! A file that was indexed and planned.
use jl_base::Space;
use jl_frames::{Frames, Plan};
use jl_rows::Options;

/// A file's bytes, the frames in them, the runs of these, and the options of the first row. All are borrowed.
#[derive(Clone, Copy)]
pub struct File<'a> {
    pub space: &'a Space,
    pub frames: &'a Frames,
    pub plan: &'a Plan,
    pub options: &'a Options,
}

//! How many items a source states.
ghost use Rattle.std.specs.Prelude.{◌≤◌, ◌^◌};
ghost use Rattle.jl_windows.specs.Counted.{CountsSource};

use crate::nowhere::Nowhere;
use crate::source::decode_source;
use crate::stopped::{Stopped, Streamed};
use jl_base::Source;
use jl_lines::Writing;
use std::alloc::Global;

/// Decodes a source by windows of this many bytes, or of one frame where that is longer, under the strict profile or not,
/// and counts its items. `left` is how many bytes may still be read; TooLong is that one more was. No text is made, and
/// WriteFault isn't answered. Takes memory as `decode_source` does, but no page.
pub fn count_source<S: Source>(
    alloc: Global,
    source: &mut S,
    window: u64,
    left: &mut u64,
    strict: bool,
) -> Result<Streamed, Stopped>
    requires least { 16 ≤ window }
    requires most { window ≤ 2 ^ 26 }
    requires few { left.old ≤ 2 ^ 60 }
    ensures { CountsSource strict (S.told source.old) (S.told source.new) left.old left.new result }
{
    decode_source(
        alloc,
        source,
        window,
        left,
        strict,
        Writing::Nothing,
        &mut Nowhere,
    )
}

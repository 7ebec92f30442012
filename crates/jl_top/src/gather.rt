//! The inputs, read one after another.
ghost use Rattle.std.specs.Prelude.{◌<◌, ◌^◌, length};
ghost use Rattle.jl_top.specs.Gathering.{Gathers};

use jl_base::{FillFault, Seq, Source, Space};
use jl_text::Notice;
use std::alloc::Global;

/// The bytes of each source, in order, where they are at most `limit` together.
pub(crate) fn gather<S: Source>(
    alloc: Global,
    sources: &mut Vec<S>,
    limit: u64,
) -> Result<Seq<Space>, Notice>
    requires { length sources.old.items < 2 ^ 32 }
    ensures { Gathers S.told limit sources.old.items sources.new.items result }
{
    let mut spaces = Seq::new(alloc);
    let mut left = limit;
    for i in 0..sources.len() {
        let mut space = Space::new(alloc);
        match space.fill(&mut sources[i], left) {
            Ok(()) => left -= space.bytes().len() as u64,
            Err(FillFault::ReadFault) => return Err(Notice::ReadFault { file: i as u32 + 1 }),
            Err(FillFault::TooLong) => return Err(Notice::TooLong),
            Err(FillFault::NoMemory) => return Err(Notice::NoMemory),
        }
        let Ok(()) = spaces.push(space) else {
            return Err(Notice::NoMemory);
        };
    }
    Ok(spaces)
}

//! How much leaves hold, against the bound of a block.
ghost use Rattle.std.specs.Prelude.{◌≡◌, ◌+◌, ◌*◌, ◌<◌, ◌≤◌, ◌^◌, ◌↔◌, IsTrue};
ghost use Rattle.jl_compose.specs.Blocks.{all_demands, all_writes};

use crate::shared::Shared;
use jl_compact::size;
use jl_rows::Options;
use jl_sym::Summary;

/// How many writes leaves have, and how many demands.
#[derive(Clone, Copy)]
pub(crate) struct Size {
    pub writes: u64,
    pub demands: u64,
}

pub(crate) fn size_of(leaves: &[Shared<Summary>]) -> Size
    requires few_writes { all_writes leaves.now < 2 ^ 32 }
    requires few_demands { all_demands leaves.now < 2 ^ 32 }
    ensures writes { result.writes ≡ all_writes leaves.now }
    ensures demands { result.demands ≡ all_demands leaves.now }
{
    let mut writes = 0;
    let mut demands = 0;
    let mut rest = leaves;
    'counting: while let Some((leaf, others)) = rest.split_first() {
        let found = size(leaf.get());
        writes += found.0;
        demands += found.1;
        rest = others;
    }
    Size { writes, demands }
}

/// Whether a block may hold so much.
pub(crate) fn is_bounded(options: &Options, size: Size) -> bool
    ensures { let slots = options.now.names + options.now.prefixes + options.now.datatypes in IsTrue result ↔ ((size.writes ≤ 1024 * slots) × (size.demands ≤ 256 * slots + 8)) }
{
    let slots = u64::from(options.names)
        + u64::from(options.prefixes)
        + u64::from(options.datatypes);
    size.writes <= 1024 * slots && size.demands <= 256 * slots + 8
}

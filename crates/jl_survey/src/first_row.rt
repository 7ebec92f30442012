//! The checks of a file's first row, wherever a window has it. `jl_rows` makes the same checks of a file's head, which
//! isn't at hand here: the row was read already.
ghost use Rattle.std.specs.Prelude.{IfOk};
ghost use Rattle.jl_base.specs.Results.{Gives};
ghost use Rattle.jl_rows.specs.Decoder as spec;
ghost use Rattle.jl_rows.specs.Heads.{ArePassed};
ghost use Rattle.jl_rows.specs.Seen.{HasRow, options_seen, row_seen};

use jl_base::Kind;
use jl_rows::{GRAPHS, Options, Row};

/// How many entries a lookup table may have.
const MOST_ENTRIES: u32 = 65_536;

/// The options of a file's first row, where it has them and they pass their checks.
pub(crate) fn first_row_checked(bytes: &[u8], row: Row) -> Result<Options, Kind>
    requires { HasRow bytes.now row }
    ensures exact { Gives (options_seen bytes.now) result (spec.first_row_checked (row_seen bytes.now row)) }
    ensures passed { IfOk result (ArePassed bytes.now) }
{
    let Row::Options(options) = row else {
        return Err(Kind::NoOptions);
    };
    if options.physical == 0
        || options.physical > GRAPHS
        || options.version == 0
        || options.version > 2
    {
        return Err(Kind::BadOptions);
    }
    if options.names > MOST_ENTRIES
        || options.prefixes > MOST_ENTRIES
        || options.datatypes > MOST_ENTRIES
    {
        return Err(Kind::TableTooLarge);
    }
    Ok(options)
}

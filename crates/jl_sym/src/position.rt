//! Which terms may stand at which positions.
ghost use Rattle.std.specs.Prelude.{true};
ghost use Rattle.jl_rows.specs.Seen as rows;
ghost use Rattle.jl_state.specs.Positions.{position_of, MayStand};
ghost use Rattle.jl_sym.specs.Checked.{options_of};

use crate::asker::Asker;
use jl_base::Kind;
use jl_rows::RawTerm;
use jl_state::{Position, stands_strictly};

impl Asker<'_, '_> {
    // The checks of a term by its position under the strict profile.
    fn stands_strictly(&self, x: Position, raw: &RawTerm) -> Result<(), Kind>
        ensures { MayStand true (options_of self.now.here.now) (position_of x) (rows.term_seen self.now.here.now.bytes.now raw.now) result }
    {
        stands_strictly(self.here.options, x, raw)
    }

    /// The checks of a term by its position; those of the terms in a triple term are their own.
    #[inline(always)]
    pub fn stands(&self, x: Position, raw: &RawTerm) -> Result<(), Kind>
        ensures { MayStand self.now.here.now.options.now.strict (options_of self.now.here.now) (position_of x) (rows.term_seen self.now.here.now.bytes.now raw.now) result }
    {
        if self.here.options.strict {
            return self.stands_strictly(x, raw);
        }
        Ok(())
    }
}

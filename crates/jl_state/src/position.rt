//! Which terms may stand at which positions, under the strict profile.
ghost use Rattle.std.specs.Prelude.{◌≡◌, ℕ, List, true};
ghost use Rattle.jl_rows.specs.Seen as rows;
ghost use Rattle.jl_state.specs.Positions.{IsPlain, MayStand, position_of};

use crate::tables::Lookup;
use jl_base::Kind;
use jl_rows::{Options, RawTerm};

/// A position of a statement.
#[derive(Clone, Copy, Debug, PartialEq, Eq)]
pub enum Position {
    Subject,
    Predicate,
    Object,
    Graph,
}

// A term may stand at a position that is a generalized one for it, or isn't.
fn stands_plain(options: &Options, is_generalized: bool) -> Result<(), Kind>
    ensures { IsPlain options.now.generalized is_generalized result }
{
    if !options.generalized && is_generalized {
        return Err(Kind::NotPlain);
    }
    Ok(())
}

/// The checks of a term by its position under the strict profile; those of the terms in a triple term are their own. A
/// triple term stands only where the file declares them, and a predicate that is no IRI or a literal that is no object
/// only where it declares generalized statements.
pub fn stands_strictly(options: &Options, x: Position, raw: &RawTerm) -> Result<(), Kind>
    ensures { (bytes : List ℕ) → MayStand true (rows.options_seen bytes options.now) (position_of x) (rows.term_seen bytes raw.now) result }
{
    match raw {
        RawTerm::Iri(_) => Ok(()),
        RawTerm::Bnode(_) => stands_plain(options, x == Position::Predicate),
        RawTerm::Default => stands_plain(options, x == Position::Predicate),
        RawTerm::Literal { .. } => stands_plain(options, x != Position::Object),
        RawTerm::Triple(_) => {
            if !options.star {
                return Err(Kind::NoStar);
            }
            stands_plain(options, x == Position::Predicate)
        }
    }
}

impl Lookup<'_> {
    // The checks of a term by its position under the strict profile.
    fn stands_strictly(&self, x: Position, raw: &RawTerm) -> Result<(), Kind>
        ensures { MayStand true (rows.options_seen self.now.bytes.now self.now.options.now) (position_of x) (rows.term_seen self.now.bytes.now raw.now) result }
    {
        stands_strictly(self.options, x, raw)
    }

    /// The checks of a term by its position, where STRICT.
    #[inline(always)]
    pub fn stands<const STRICT: bool>(&self, x: Position, raw: &RawTerm) -> Result<(), Kind>
        ensures { MayStand STRICT (rows.options_seen self.now.bytes.now self.now.options.now) (position_of x) (rows.term_seen self.now.bytes.now raw.now) result }
    {
        if STRICT {
            return self.stands_strictly(x, raw);
        }
        Ok(())
    }
}

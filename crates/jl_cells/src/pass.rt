ghost use Rattle.std.specs.Prelude.{◌≡◌, ◌<◌, length};
ghost use Rattle.std.specs.FinMap.{contains_key};

use crate::row::knows_at;
use crate::sight::Sight;
use std::marker::Model;

/// What one caller knows of a row of cells. It has one byte for each of them.
#[derive(Drop)]
pub struct Pass<T> {
    pub(crate) sights: Vec<Sight<T>>,
}

impl<T> Model for Pass<T> {
    ghost use Rattle.jl_cells.specs.Knowledge.{Knowledge, knowledge_coded, knowledge_of};

    ghost Value = { Knowledge T };

    ghost coded = { knowledge_coded T.code };

    ghost view = { λ p. knowledge_of p.sights.items };
}

impl<T> Pass<T> {
    /// Whether the pass knows the value of the cell with this number.
    pub fn knows(&self, i: u64) -> bool
        requires { i < length self.now.cells }
        ensures { result ≡ contains_key self.now.known i }
    {
        knows_at(&self.sights, i as usize)
    }
}

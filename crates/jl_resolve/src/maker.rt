//! What is made of the items of a run.
ghost use Rattle.std.specs.Prelude.{◌≡◌, List, IfOk};
ghost use Rattle.jl_base.specs.Items.{items_of};
ghost use Rattle.jl_base.specs.Terms.{Item};
ghost use Rattle.jl_text.specs.Line.{text};

use jl_base::{Items, Text};
use jl_text::line;
use std::alloc::{AllocError, Global};

/// Makes something of the items of a run, by whichever worker has them: its answer is told by the items alone.
pub trait Maker: Sync {
    type Out: Send + Drop;

    /// What it may answer for some items.
    ghost makes: { Self → List Item → Self.Out → Type 0 };

    fn make(&self, items: &Items) -> Result<Self::Out, AllocError>
        ensures { IfOk result (makes self.now (items_of items.now)) };
}

/// Makes the lines of the items, one after another.
#[derive(Debug, Drop)]
pub struct LineMaker {
    alloc: Global,
}

impl LineMaker {
    /// A maker that takes its memory here: for the text of all lines, and for each line twice while it is appended.
    pub fn new(alloc: Global) -> LineMaker {
        LineMaker { alloc }
    }
}

impl Maker for LineMaker {
    type Out = Text;

    ghost makes = { λ _ items out. out ≡ text items };

    fn make(&self, items: &Items) -> Result<Text, AllocError> {
        let mut out = Text::new(self.alloc);
        let mut rest = items.as_slice();
        'items: while let Some((item, after)) = rest.split_first() {
            line(self.alloc, item, &mut out)?;
            rest = after;
        }
        Ok(out)
    }
}

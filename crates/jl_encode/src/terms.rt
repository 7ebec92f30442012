//! Terms behind the desk: the entries of their texts, and what their row states of them.
ghost use Rattle.std.specs.Prelude.{◌≡◌};
ghost use Rattle.jl_base.specs.Items.{value_of};
ghost use Rattle.jl_base.specs.Terms.{Nested};
ghost use Rattle.jl_encode.specs.Putting as putting;
ghost use Rattle.jl_encode.specs.Putting.{Puts};
ghost use Rattle.jl_encode.specs.Stated.{stated, nested_stated};

use crate::desk::Desk;
use crate::refusal::Refusal;
use crate::stated::{Stated, StatedThree};
use jl_base::{Tail, Term, Three};
use jl_rows::Table;
use sqlite_items::Boxed;

impl Desk {
    /// What the row states of a term.
    #[cycle(put)]
    pub fn put_term(&mut self, out: &mut Vec<u8>, term: &Term) -> Result<Stated, Refusal>
        ensures { Puts (putting.put_term (value_of term.now) self.old) (stated (value_of term.now)) out.old.items out.new.items self.new result }
    {
        match term {
            Term::Iri(text) => Ok(Stated::Iri(self.put_iri(out, text.bytes())?)),
            Term::Bnode(_) => Ok(Stated::Texts),
            Term::Literal { tail, .. } => match tail {
                Tail::Simple => Ok(Stated::Texts),
                Tail::Lang(_) => Ok(Stated::Texts),
                Tail::Typed(iri) => Ok(Stated::Typed(self.put_text(
                    out,
                    Table::Datatype,
                    iri.bytes(),
                )?)),
            },
            Term::Triple(three) => {
                let three = self.put_three(out, three.get())?;
                Ok(Stated::Triple(Boxed::new(*out.allocator(), three)?))
            }
            Term::Default => Ok(Stated::Texts),
        }
    }

    #[cycle(put)]
    fn put_three(&mut self, out: &mut Vec<u8>, three: &Three) -> Result<StatedThree, Refusal>
        ensures { Puts (putting.put_term (Nested (value_of three.now.s) (value_of three.now.p) (value_of three.now.o)) self.old)
            (nested_stated (value_of three.now.s) (value_of three.now.p) (value_of three.now.o)) out.old.items out.new.items self.new result }
    {
        Ok(StatedThree {
            s: self.put_term(out, &three.s)?,
            p: self.put_term(out, &three.p)?,
            o: self.put_term(out, &three.o)?,
        })
    }
}

//! Copies of a state.
ghost use Rattle.std.specs.Prelude.{◌≡◌, ℕ, List, IfOk};
ghost use Rattle.jl_state.specs.Lawful.{state_seen, IsLawful};

use crate::{Extent, Known, KnownThree, State, Tables};
use sqlite_items::Boxed;
use std::alloc::{AllocError, Global};

// All slots of a table, in one piece.
fn copy_slots(alloc: Global, slots: &Vec<Extent>) -> Result<Vec<Extent>, AllocError>
    ensures { IfOk result (λ copy. copy.items ≡ slots.now.items) }
{
    let mut copy = Vec::new(alloc);
    copy.extend_from_slice(slots)?;
    Ok(copy)
}

impl Known {
    /// An equal term. Only a triple term takes memory, a box for its terms.
    #[cycle(copy)]
    pub fn copy(&self, alloc: Global) -> Result<Known, AllocError>
        ensures { IfOk result (λ term. term ≡ self.now) }
    {
        match self {
            Known::Iri { prefix, name } => Ok(Known::Iri {
                prefix: *prefix,
                name: *name,
            }),
            Known::Bnode(label) => Ok(Known::Bnode(*label)),
            Known::Literal { lex, tail } => Ok(Known::Literal {
                lex: *lex,
                tail: *tail,
            }),
            Known::Triple(three) => {
                let three = three.get().copy(alloc)?;
                Ok(Known::Triple(Boxed::new(alloc, three)?))
            }
            Known::Default => Ok(Known::Default),
        }
    }
}

impl KnownThree {
    // Equal terms.
    #[cycle(copy)]
    fn copy(&self, alloc: Global) -> Result<KnownThree, AllocError>
        ensures { IfOk result (λ three. three ≡ self.now) }
    {
        Ok(KnownThree {
            s: self.s.copy(alloc)?,
            p: self.p.copy(alloc)?,
            o: self.o.copy(alloc)?,
        })
    }
}

fn copy_kept(alloc: Global, term: &Option<Known>) -> Result<Option<Known>, AllocError>
    ensures { IfOk result (λ copy. copy ≡ term.now) }
{
    match term {
        Some(term) => Ok(Some(term.copy(alloc)?)),
        None => Ok(None),
    }
}

impl Tables {
    // Equal slots.
    fn copy(&self, alloc: Global) -> Result<Tables, AllocError>
        ensures names { IfOk result (λ tables. tables.names.items ≡ self.now.names.items) }
        ensures prefixes { IfOk result (λ tables. tables.prefixes.items ≡ self.now.prefixes.items) }
        ensures datatypes { IfOk result (λ tables. tables.datatypes.items ≡ self.now.datatypes.items) }
    {
        Ok(Tables {
            names: copy_slots(alloc, &self.names)?,
            prefixes: copy_slots(alloc, &self.prefixes)?,
            datatypes: copy_slots(alloc, &self.datatypes)?,
        })
    }
}

impl State {
    /// An equal state, in memory of its own: eight bytes for each slot, and a box for each triple term that it keeps.
    pub fn copy(&self, alloc: Global) -> Result<State, AllocError>
        ensures seen { IfOk result (λ state. (bytes : List ℕ) → state_seen bytes state ≡ state_seen bytes self.now) }
        ensures lawful { IfOk result (λ state. (bytes : List ℕ) → IsLawful bytes self.now → IsLawful bytes state) }
        ensures options { IfOk result (λ state. state.options ≡ self.now.options) }
    {
        Ok(State {
            options: self.options,
            tables: self.tables.copy(alloc)?,
            name_entry: self.name_entry,
            prefix_entry: self.prefix_entry,
            datatype_entry: self.datatype_entry,
            last: self.last,
            subject: copy_kept(alloc, &self.subject)?,
            predicate: copy_kept(alloc, &self.predicate)?,
            object: copy_kept(alloc, &self.object)?,
            graph: copy_kept(alloc, &self.graph)?,
            open_graph: copy_kept(alloc, &self.open_graph)?,
        })
    }
}

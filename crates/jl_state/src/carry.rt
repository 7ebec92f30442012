//! A state with its texts in another space.
ghost use Rattle.std.specs.Prelude.{◌≡◌, ◌++◌, map, IfOk, OnErr, OnOk};
ghost use Rattle.jl_rows.specs.Carries.{Grows};
ghost use Rattle.jl_rows.specs.Seen.{options_seen};
ghost use Rattle.jl_state.specs.Carries.{CarriesMaybe, CarriesSlots, CarriesState, CarriesTail, CarriesTerm};
ghost use Rattle.jl_state.specs.Extents.{slot_seen, AreSound, IsHeld, IsSound};
ghost use Rattle.jl_state.specs.KnownTerms.{known_value, tail_value, AreParts, HasKnown, HasTail};
ghost use Rattle.jl_state.specs.Lawful.{maybe_value, state_seen, HasMaybe, IsLawful};
ghost use Rattle.jl_state.specs.Texts.{maybe_text, table_text, tail_text, texts_of, value_text};
ghost use Rattle.jl_state.specs.declared.known.Known as known;

use crate::{Extent, Known, KnownTail, KnownThree, State, Tables};
use jl_base::Space;
use sqlite_items::Boxed;
use std::alloc::{AllocError, Global};

// The slots of a table. Only the filled ones have a text.
fn carry_slots(
    alloc: Global,
    from: &Space,
    into: &mut Space,
    slots: &[Extent],
) -> Result<Vec<Extent>, AllocError>
    requires { AreSound from.now slots.now }
    ensures carries { IfOk result (λ carried. CarriesSlots from.now into.new slots.now carried.items) }
    ensures after { OnOk result (into.new ≡ into.old ++ table_text (map (slot_seen from.now) slots.now)) }
    ensures grows { Grows into.old into.new }
{
    let mut carried = Vec::with_capacity(alloc, slots.len())?;
    for i in 0..slots.len() {
        let slot = slots[i].carried_slot(from, into)?;
        carried.push(slot)?;
    }
    Ok(carried)
}

fn carry_tail(from: &Space, into: &mut Space, tail: KnownTail) -> Result<KnownTail, AllocError>
    requires { HasTail from.now tail }
    ensures carries { IfOk result (CarriesTail from.now into.new tail) }
    ensures after { OnOk result (into.new ≡ into.old ++ tail_text (tail_value from.now tail)) }
    ensures grows { Grows into.old into.new }
{
    match tail {
        KnownTail::Simple => Ok(KnownTail::Simple),
        KnownTail::Lang(tag) => Ok(KnownTail::Lang(tag.carried(from, into)?)),
        KnownTail::Typed(datatype) => Ok(KnownTail::Typed(datatype.carried(from, into)?)),
    }
}

fn carry_iri(
    from: &Space,
    into: &mut Space,
    prefix: Extent,
    name: Extent,
) -> Result<Known, AllocError>
    requires prefix { IsSound from.now prefix }
    requires name { IsSound from.now name }
    ensures carries { IfOk result (CarriesTerm from.now into.new (known.Iri prefix name)) }
    ensures after { OnOk result (into.new ≡ into.old ++ value_text (known_value from.now (known.Iri prefix name))) }
    ensures grows { Grows into.old into.new }
{
    let prefix = prefix.carried(from, into)?;
    let name = name.carried(from, into)?;
    Ok(Known::Iri { prefix, name })
}

fn carry_literal(
    from: &Space,
    into: &mut Space,
    lex: Extent,
    tail: KnownTail,
) -> Result<Known, AllocError>
    requires lex { IsHeld from.now lex }
    requires tail { HasTail from.now tail }
    ensures carries { IfOk result (CarriesTerm from.now into.new (known.Literal lex tail)) }
    ensures after { OnOk result (into.new ≡ into.old ++ value_text (known_value from.now (known.Literal lex tail))) }
    ensures grows { Grows into.old into.new }
{
    let lex = lex.carried(from, into)?;
    let tail = carry_tail(from, into, tail)?;
    Ok(Known::Literal { lex, tail })
}

// A term. A triple term takes a box for its terms.
#[cycle(carry)]
fn carry_known(
    alloc: Global,
    from: &Space,
    into: &mut Space,
    term: &Known,
) -> Result<Known, AllocError>
    requires { HasKnown from.now term.now }
    ensures carries { IfOk result (CarriesTerm from.now into.new term.now) }
    ensures after { OnOk result (into.new ≡ into.old ++ value_text (known_value from.now term.now)) }
    ensures grows { Grows into.old into.new }
{
    match term {
        Known::Iri { prefix, name } => carry_iri(from, into, *prefix, *name),
        Known::Bnode(label) => Ok(Known::Bnode(label.carried(from, into)?)),
        Known::Literal { lex, tail } => carry_literal(from, into, *lex, *tail),
        Known::Triple(three) => carry_three(alloc, from, into, term, three.get()),
        Known::Default => Ok(Known::Default),
    }
}

// A triple term, whose three these are.
#[cycle(carry)]
fn carry_three(
    alloc: Global,
    from: &Space,
    into: &mut Space,
    whole: &Known,
    three: &KnownThree,
) -> Result<Known, AllocError>
    requires has { HasKnown from.now whole.now }
    requires parts { AreParts from.now whole.now three.now }
    ensures carries { IfOk result (CarriesTerm from.now into.new whole.now) }
    ensures after { OnOk result (into.new ≡ into.old ++ value_text (known_value from.now whole.now)) }
    ensures grows { Grows into.old into.new }
{
    let s = carry_known(alloc, from, into, &three.s)?;
    let p = carry_known(alloc, from, into, &three.p)?;
    let o = carry_known(alloc, from, into, &three.o)?;
    Ok(Known::Triple(Boxed::new(alloc, KnownThree { s, p, o })?))
}

// A term, where there is one.
fn carry_maybe(
    alloc: Global,
    from: &Space,
    into: &mut Space,
    term: &Option<Known>,
) -> Result<Option<Known>, AllocError>
    requires { HasMaybe from.now term.now }
    ensures carries { IfOk result (CarriesMaybe from.now into.new term.now) }
    ensures after { OnOk result (into.new ≡ into.old ++ maybe_text (maybe_value from.now term.now)) }
    ensures grows { Grows into.old into.new }
{
    match term {
        Some(known) => Ok(Some(carry_known(alloc, from, into, known)?)),
        None => Ok(None),
    }
}

impl State {
    // The same state, with its texts after the bytes of another space; on a refusal some of them stand there.
    fn carried(&self, alloc: Global, from: &Space, into: &mut Space) -> Result<State, AllocError>
        requires { IsLawful from.now self.now }
        ensures carries { IfOk result (CarriesState from.now into.new self.now) }
        ensures after { OnOk result (into.new ≡ into.old ++ texts_of (options_seen from.now self.now.options) (state_seen from.now self.now)) }
        ensures grows { Grows into.old into.new }
    {
        let options = self.options.carry(from, into)?;
        let names = carry_slots(alloc, from, into, &self.tables.names)?;
        let prefixes = carry_slots(alloc, from, into, &self.tables.prefixes)?;
        let datatypes = carry_slots(alloc, from, into, &self.tables.datatypes)?;
        let subject = carry_maybe(alloc, from, into, &self.subject)?;
        let predicate = carry_maybe(alloc, from, into, &self.predicate)?;
        let object = carry_maybe(alloc, from, into, &self.object)?;
        let graph = carry_maybe(alloc, from, into, &self.graph)?;
        let open_graph = carry_maybe(alloc, from, into, &self.open_graph)?;
        Ok(State {
            options,
            tables: Tables {
                names,
                prefixes,
                datatypes,
            },
            name_entry: self.name_entry,
            prefix_entry: self.prefix_entry,
            datatype_entry: self.datatype_entry,
            last: self.last,
            subject,
            predicate,
            object,
            graph,
            open_graph,
        })
    }

    /// The same state, with its texts after the bytes of another space, and whatever may follow these there. Takes the
    /// state's tables, and room for its texts; where a text would begin at 2^30 bytes or later, memory isn't found. A
    /// text that two slots or terms share is carried for each of them. On a refusal the other space is unchanged.
    pub fn carry(&self, alloc: Global, from: &Space, into: &mut Space) -> Result<State, AllocError>
        requires { IsLawful from.now self.now }
        ensures carries { IfOk result (CarriesState from.now into.new self.now) }
        ensures after { OnOk result (into.new ≡ into.old ++ texts_of (options_seen from.now self.now.options) (state_seen from.now self.now)) }
        ensures grows { Grows into.old into.new }
        ensures refused { OnErr result (into.new ≡ into.old) }
    {
        let len = into.bytes().len();
        match self.carried(alloc, from, into) {
            Ok(state) => Ok(state),
            Err(refusal) => {
                into.cut(len);
                Err(refusal)
            }
        }
    }
}

/// Makes a space hold the texts of a state alone, so that the next window's frames can follow them: whatever follows,
/// the state means the same. They are written aside first, since they may lie anywhere in the space. Takes a copy of the
/// state's tables for the time of the call, and room for its texts in `aside`, which keeps it. On a refusal the state's
/// texts may be gone: it isn't used again.
pub fn bring_texts(
    alloc: Global,
    state: &mut State,
    space: &mut Space,
    aside: &mut Space,
) -> Result<(), AllocError>
    requires { IsLawful space.old state.old }
    ensures carries { OnOk result (CarriesState space.old space.new state.old state.new) }
    ensures alone { OnOk result (space.new ≡ texts_of (options_seen space.old state.old.options) (state_seen space.old state.old)) }
{
    aside.cut(0);
    let carried = state.carry(alloc, space, aside)?;
    space.cut(0);
    space.append(aside.bytes())?;
    *state = carried;
    Ok(())
}

//! Terms of a row, resolved: what they mean by where their texts lie.
ghost use Rattle.std.specs.Prelude.{◌≡◌, ◌<◌, ◌≤◌, IfErr, IfOk, OnOk, Some, false, length};
ghost use Rattle.jl_base.specs.Limits.{most_bytes};
ghost use Rattle.jl_rows.specs.Decoder as decoder;
ghost use Rattle.jl_rows.specs.Seen as rows;
ghost use Rattle.jl_state.specs.Steps as steps;
ghost use Rattle.jl_state.specs.Answers.{Looks, WantsFor};
ghost use Rattle.jl_state.specs.KnownTerms.{HasKnown};
ghost use Rattle.jl_state.specs.Lawful.{maybe_value, HasMaybe, Places};
ghost use Rattle.jl_state.specs.Positions.{inner_under, is_triple_term, position_of, under};
ghost use Rattle.jl_state.specs.Seen.{slots_seen, ids_seen, AreTables, IsLeaf};

use crate::known::{Known, KnownThree};
use crate::position::Position;
use crate::tables::{LastIds, Lookup};
use crate::{Extent, Stop};
use jl_base::Kind;
use jl_rows::{RawTerm, RawTriple, triple_term_at};
use sqlite_items::Boxed;
use std::alloc::Global;
use std::mem;

// Puts a term into a position's place. Of those that stood there only a triple term holds memory, so no other is dropped.
#[inline(always)]
fn put(before: &mut Option<Known>, known: Known)
    ensures { before.new ≡ Some known }
{
    if let Some(Known::Triple(_)) = before {
        *before = None;
    }
    mem::forget(mem::replace(before, Some(known)));
}

impl Lookup<'_> {
    /// A term that is no triple term, with the last ids behind it. It takes no memory.
    #[inline(always)]
    pub fn leaf(&self, last: &mut LastIds, raw: &RawTerm) -> Result<Known, Stop>
        requires tables { AreTables self.now.bytes.now self.now.tables.now }
        requires inside { rows.HasTerm self.now.bytes.now raw.now }
        requires short { length self.now.bytes.now ≤ most_bytes }
        requires small { last.old.name ≤ decoder.most_entries }
        requires leaf { IsLeaf raw.now }
        ensures exact { Looks self.now.bytes.now
            (steps.looked (slots_seen self.now.bytes.now self.now.tables.now) (ids_seen last.old) (rows.term_seen self.now.bytes.now raw.now)) last.new result }
        ensures sound { IfOk result (HasKnown self.now.bytes.now) }
        ensures small { OnOk result (last.new.name ≤ decoder.most_entries) }
        ensures memory { IfErr result (WantsFor false) }
    {
        match raw {
            RawTerm::Iri(iri) => {
                let ids = last.after(*iri);
                let (prefix, name) = self.iri(ids)?;
                *last = ids;
                Ok(Known::Iri { prefix, name })
            }
            RawTerm::Bnode(span) => Ok(Known::Bnode(Extent::of(self.bytes, *span))),
            RawTerm::Literal { lex, tail } => {
                let tail = self.tail(*tail)?;
                let lex = Extent::of(self.bytes, *lex);
                Ok(Known::Literal { lex, tail })
            }
            RawTerm::Default => Ok(Known::Default),
            RawTerm::Triple(_) => unreachable!(),
        }
    }

    /// A term at a position: the row's own, or the last one there again. On a stop nothing is promised of both.
    #[inline(always)]
    pub fn place<const STRICT: bool>(
        &self,
        alloc: Global,
        x: Position,
        last: &mut LastIds,
        before: &mut Option<Known>,
        raw: &Option<RawTerm>,
    ) -> Result<(), Stop>
        requires tables { AreTables self.now.bytes.now self.now.tables.now }
        requires inside { rows.HasPosition self.now.bytes.now raw.now }
        requires before { HasMaybe self.now.bytes.now before.old }
        requires short { length self.now.bytes.now ≤ most_bytes }
        requires small { last.old.name ≤ decoder.most_entries }
        ensures exact { Places self.now.bytes.now
            (steps.placed (slots_seen self.now.bytes.now self.now.tables.now) (ids_seen last.old) (maybe_value self.now.bytes.now before.old)
            (under STRICT (rows.options_seen self.now.bytes.now self.now.options.now) (position_of x) (rows.position_seen self.now.bytes.now raw.now))) before.new last.new result }
        ensures sound { OnOk result (HasMaybe self.now.bytes.now before.new) }
        ensures small { OnOk result (last.new.name ≤ decoder.most_entries) }
        ensures memory { IfErr result (WantsFor (is_triple_term (rows.position_seen self.now.bytes.now raw.now))) }
    {
        let Some(raw) = raw else {
            if before.is_none() {
                return Err(Stop::Fault(Kind::NoTerm));
            }
            return Ok(());
        };
        if let RawTerm::Triple(_) = raw {
            return self.place_nested::<STRICT>(alloc, x, last, before, raw);
        }
        self.stands::<STRICT>(x, raw)?;
        put(before, self.leaf(last, raw)?);
        Ok(())
    }

    // A triple term at a position. It stands apart, since few files have one.
    #[inline(never)]
    fn place_nested<const STRICT: bool>(
        self,
        alloc: Global,
        x: Position,
        last: &mut LastIds,
        before: &mut Option<Known>,
        raw: &RawTerm,
    ) -> Result<(), Stop>
        requires tables { AreTables self.bytes.now self.tables.now }
        requires inside { rows.HasTerm self.bytes.now raw.now }
        requires short { length self.bytes.now ≤ most_bytes }
        requires small { last.old.name ≤ decoder.most_entries }
        ensures exact { Places self.entry.bytes.now
            (steps.looked (slots_seen self.entry.bytes.now self.entry.tables.now) (ids_seen last.old)
            (under STRICT (rows.options_seen self.entry.bytes.now self.entry.options.now) (position_of x) (rows.term_seen self.entry.bytes.now raw.now))) before.new last.new result }
        ensures sound { OnOk result (HasMaybe self.entry.bytes.now before.new) }
        ensures small { OnOk result (last.new.name ≤ decoder.most_entries) }
        ensures memory { IfErr result (WantsFor (is_triple_term (rows.term_seen self.entry.bytes.now raw.now))) }
    {
        *before = Some(self.term::<STRICT>(alloc, x, last, *raw)?);
        Ok(())
    }

    /// A term that must be set, with the last ids behind it. A triple term takes a box for its terms; nothing else takes
    /// memory.
    #[cycle(look)]
    pub fn term<const STRICT: bool>(
        &self,
        alloc: Global,
        x: Position,
        last: &mut LastIds,
        raw: RawTerm,
    ) -> Result<Known, Stop>
        requires tables { AreTables self.now.bytes.now self.now.tables.now }
        requires inside { rows.HasTerm self.now.bytes.now raw }
        requires short { length self.now.bytes.now ≤ most_bytes }
        requires small { last.old.name ≤ decoder.most_entries }
        ensures exact { Looks self.now.bytes.now
            (steps.looked (slots_seen self.now.bytes.now self.now.tables.now) (ids_seen last.old)
            (under STRICT (rows.options_seen self.now.bytes.now self.now.options.now) (position_of x) (rows.term_seen self.now.bytes.now raw))) last.new result }
        ensures sound { IfOk result (HasKnown self.now.bytes.now) }
        ensures small { OnOk result (last.new.name ≤ decoder.most_entries) }
        ensures memory { IfErr result (WantsFor (is_triple_term (rows.term_seen self.now.bytes.now raw))) }
    {
        self.stands::<STRICT>(x, &raw)?;
        let RawTerm::Triple(span) = raw else {
            return self.leaf(last, &raw);
        };
        self.three::<STRICT>(alloc, last, &triple_term_at(self.bytes, span))
    }

    // The terms of a triple term that may stand where it does.
    #[cycle(look)]
    fn three<const STRICT: bool>(
        &self,
        alloc: Global,
        last: &mut LastIds,
        terms: &RawTriple,
    ) -> Result<Known, Stop>
        requires tables { AreTables self.now.bytes.now self.now.tables.now }
        requires inside { rows.HasTriple self.now.bytes.now terms.now }
        requires short { length self.now.bytes.now ≤ most_bytes }
        requires small { last.old.name ≤ decoder.most_entries }
        ensures exact { Looks self.now.bytes.now
            (steps.looked (slots_seen self.now.bytes.now self.now.tables.now) (ids_seen last.old)
            (inner_under STRICT (rows.options_seen self.now.bytes.now self.now.options.now) (rows.nested_seen self.now.bytes.now terms.now))) last.new result }
        ensures sound { IfOk result (HasKnown self.now.bytes.now) }
        ensures small { OnOk result (last.new.name ≤ decoder.most_entries) }
    {
        let s = self.inner::<STRICT>(alloc, Position::Subject, last, terms.s)?;
        let p = self.inner::<STRICT>(alloc, Position::Predicate, last, terms.p)?;
        let o = self.inner::<STRICT>(alloc, Position::Object, last, terms.o)?;
        Ok(Known::Triple(Boxed::new(alloc, KnownThree { s, p, o })?))
    }

    // A term inside a triple term, which must be set.
    #[cycle(look)]
    fn inner<const STRICT: bool>(
        &self,
        alloc: Global,
        x: Position,
        last: &mut LastIds,
        raw: Option<RawTerm>,
    ) -> Result<Known, Stop>
        requires tables { AreTables self.now.bytes.now self.now.tables.now }
        requires inside { rows.HasPosition self.now.bytes.now raw }
        requires short { length self.now.bytes.now ≤ most_bytes }
        requires small { last.old.name ≤ decoder.most_entries }
        ensures exact { Looks self.now.bytes.now
            (steps.looked (slots_seen self.now.bytes.now self.now.tables.now) (ids_seen last.old)
            (under STRICT (rows.options_seen self.now.bytes.now self.now.options.now) (position_of x) (rows.position_seen self.now.bytes.now raw))) last.new result }
        ensures sound { IfOk result (HasKnown self.now.bytes.now) }
        ensures small { OnOk result (last.new.name ≤ decoder.most_entries) }
    {
        let Some(raw) = raw else {
            return Err(Stop::Fault(Kind::NoTerm));
        };
        self.term::<STRICT>(alloc, x, last, raw)
    }
}

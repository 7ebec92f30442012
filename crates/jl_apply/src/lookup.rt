//! Texts of slots, and terms as rows wrote them, by the slots as they are. A text that isn't there is empty: whether it
//! has to be is asked elsewhere.
ghost use Rattle.std.specs.Prelude.{◌≡◌, ◌<◌, ◌≤◌, ◌^◌, None, IfErr, IfOk, OnOk, true, length, map, slice_index_or};
ghost use Rattle.jl_base.specs.Limits.{most_bytes};
ghost use Rattle.jl_base.specs.Results.{Gives, some_or};
ghost use Rattle.jl_rows.specs.Seen as rows;
ghost use Rattle.jl_rows.specs.Values as values;
ghost use Rattle.jl_state.specs.Extents.{text_in, slot_seen, IsSound, AreSound};
ghost use Rattle.jl_state.specs.KnownTerms as known;
ghost use Rattle.jl_state.specs.Positions.{is_triple_term};
ghost use Rattle.jl_state.specs.Seen.{slots_seen, ids_seen, AreTables, IsLeaf};
ghost use Rattle.jl_sym_laws.specs.Symbols as symbols;
ghost use Rattle.jl_apply.specs.Terms.{ids_on, iri_value, last_on, value_on};

use jl_base::Kind;
use jl_rows::{RawIri, RawTail, RawTerm, RawTriple, triple_term_at};
use jl_state::{Extent, Known, KnownTail, KnownThree, LastIds, Tables};
use sqlite_items::Boxed;
use std::alloc::{AllocError, Global};

/// The tables over the bytes in which their texts lie.
#[derive(Clone, Copy)]
pub(crate) struct Lookup<'a> {
    pub bytes: &'a [u8],
    pub tables: &'a Tables,
}

/// The highest id that a table may have a slot of.
const MOST_ENTRIES: u64 = 65_536;

// The last ids once an IRI was read. Names that count on above all tables stay there.
#[inline]
fn ids_after(iri: RawIri, last: LastIds) -> LastIds
    ensures { ids_seen result ≡ ids_on (rows.ids_seen iri) (ids_seen last) }
{
    LastIds {
        prefix: if iri.prefix == 0 {
            last.prefix
        } else {
            u64::from(iri.prefix)
        },
        name: if iri.name == 0 {
            last.name.min(MOST_ENTRIES) + 1
        } else {
            u64::from(iri.name)
        },
    }
}

impl Lookup<'_> {
    /// The slot of an id, where it is filled.
    #[inline]
    pub fn filled(&self, slots: &[Extent], id: u64) -> Result<Extent, Kind>
        requires { AreSound self.now.bytes.now slots.now }
        ensures exact { Gives (text_in self.now.bytes.now) result
            (some_or (slice_index_or (map (slot_seen self.now.bytes.now) slots.now) id None) Kind.NoEntry) }
        ensures sound { IfOk result (IsSound self.now.bytes.now) }
    {
        if id >= slots.len() as u64 {
            return Err(Kind::NoEntry);
        }
        let slot = slots[id as usize];
        if slot.is_filled() {
            Ok(slot)
        } else {
            Err(Kind::NoEntry)
        }
    }

    /// The prefix's text: empty before any prefix id was given.
    #[inline]
    pub fn prefix(&self, id: u64) -> Result<Extent, Kind>
        requires { AreTables self.now.bytes.now self.now.tables.now }
        ensures exact { Gives (text_in self.now.bytes.now) result
            (values.prefix_text (slots_seen self.now.bytes.now self.now.tables.now) id) }
        ensures sound { IfOk result (IsSound self.now.bytes.now) }
    {
        if id == 0 {
            return Ok(Extent::empty());
        }
        self.filled(&self.tables.prefixes, id)
    }

    // The IRI that has these ids.
    fn iri(&self, ids: LastIds) -> Known
        requires { AreTables self.now.bytes.now self.now.tables.now }
        ensures value { known.known_value self.now.bytes.now result ≡ iri_value (slots_seen self.now.bytes.now self.now.tables.now) (ids_seen ids) }
        ensures sound { known.HasKnown self.now.bytes.now result }
    {
        let Ok(prefix) = self.prefix(ids.prefix) else {
            return Known::Iri {
                prefix: Extent::empty(),
                name: Extent::empty(),
            };
        };
        let Ok(name) = self.filled(&self.tables.names, ids.name) else {
            return Known::Iri {
                prefix: Extent::empty(),
                name: Extent::empty(),
            };
        };
        Known::Iri { prefix, name }
    }

    // The end of a literal.
    fn tail(&self, tail: RawTail) -> KnownTail
        requires tables { AreTables self.now.bytes.now self.now.tables.now }
        requires inside { rows.HasTail self.now.bytes.now tail }
        requires short { length self.now.bytes.now ≤ most_bytes }
        ensures value { known.tail_value self.now.bytes.now result
            ≡ symbols.tail_value (slots_seen self.now.bytes.now self.now.tables.now) (symbols.tail_written (rows.ending_seen self.now.bytes.now tail)) }
        ensures sound { known.HasTail self.now.bytes.now result }
    {
        match tail {
            RawTail::Simple => KnownTail::Simple,
            RawTail::Lang(span) => KnownTail::Lang(Extent::of(self.bytes, span)),
            RawTail::Typed(id) => {
                match self.filled(&self.tables.datatypes, u64::from(id)) {
                    Ok(datatype) => KnownTail::Typed(datatype),
                    Err(_) => KnownTail::Typed(Extent::empty()),
                }
            }
        }
    }

    // A term that is no triple term, after these last ids, which become those after it.
    fn leaf(&self, last: &mut LastIds, raw: &RawTerm) -> Known
        requires tables { AreTables self.now.bytes.now self.now.tables.now }
        requires inside { rows.HasTerm self.now.bytes.now raw.now }
        requires short { length self.now.bytes.now ≤ most_bytes }
        requires leaf { IsLeaf raw.now }
        ensures value { known.known_value self.now.bytes.now result
            ≡ value_on (slots_seen self.now.bytes.now self.now.tables.now) (ids_seen last.old) (rows.term_seen self.now.bytes.now raw.now) }
        ensures last { ids_seen last.new ≡ last_on (rows.term_seen self.now.bytes.now raw.now) (ids_seen last.old) }
        ensures sound { known.HasKnown self.now.bytes.now result }
    {
        match raw {
            RawTerm::Iri(iri) => {
                *last = ids_after(*iri, *last);
                self.iri(*last)
            }
            RawTerm::Bnode(span) => Known::Bnode(Extent::of(self.bytes, *span)),
            RawTerm::Literal { lex, tail } => Known::Literal {
                lex: Extent::of(self.bytes, *lex),
                tail: self.tail(*tail),
            },
            RawTerm::Default => Known::Default,
            RawTerm::Triple(_) => unreachable!(),
        }
    }

    /// A term after these last ids, which become those after it. Only a triple term takes memory, a box for its terms.
    #[cycle(read)]
    pub fn term(
        &self,
        alloc: Global,
        last: &mut LastIds,
        raw: &RawTerm,
    ) -> Result<Known, AllocError>
        requires tables { AreTables self.now.bytes.now self.now.tables.now }
        requires inside { rows.HasTerm self.now.bytes.now raw.now }
        requires short { length self.now.bytes.now ≤ most_bytes }
        ensures value { IfOk result (λ k. known.known_value self.now.bytes.now k
            ≡ value_on (slots_seen self.now.bytes.now self.now.tables.now) (ids_seen last.old) (rows.term_seen self.now.bytes.now raw.now)) }
        ensures last { OnOk result (ids_seen last.new ≡ last_on (rows.term_seen self.now.bytes.now raw.now) (ids_seen last.old)) }
        ensures sound { IfOk result (known.HasKnown self.now.bytes.now) }
        ensures memory { IfErr result (λ _. is_triple_term (rows.term_seen self.now.bytes.now raw.now) ≡ true) }
    {
        let RawTerm::Triple(span) = raw else {
            return Ok(self.leaf(last, raw));
        };
        self.three(alloc, last, &triple_term_at(self.bytes, *span))
    }

    // The terms of a triple term.
    #[cycle(read)]
    fn three(
        &self,
        alloc: Global,
        last: &mut LastIds,
        terms: &RawTriple,
    ) -> Result<Known, AllocError>
        requires tables { AreTables self.now.bytes.now self.now.tables.now }
        requires inside { rows.HasTriple self.now.bytes.now terms.now }
        requires short { length self.now.bytes.now ≤ most_bytes }
        ensures value { IfOk result (λ k. known.known_value self.now.bytes.now k
            ≡ value_on (slots_seen self.now.bytes.now self.now.tables.now) (ids_seen last.old) (rows.nested_seen self.now.bytes.now terms.now)) }
        ensures last { OnOk result (ids_seen last.new ≡ last_on (rows.nested_seen self.now.bytes.now terms.now) (ids_seen last.old)) }
        ensures sound { IfOk result (known.HasKnown self.now.bytes.now) }
    {
        let s = self.inner(alloc, last, &terms.s)?;
        let p = self.inner(alloc, last, &terms.p)?;
        let o = self.inner(alloc, last, &terms.o)?;
        Ok(Known::Triple(Boxed::new(alloc, KnownThree { s, p, o })?))
    }

    // A term inside a triple term. Of one that isn't set nothing is known; no state meets its demand.
    #[cycle(read)]
    fn inner(
        &self,
        alloc: Global,
        last: &mut LastIds,
        raw: &Option<RawTerm>,
    ) -> Result<Known, AllocError>
        requires tables { AreTables self.now.bytes.now self.now.tables.now }
        requires inside { rows.HasPosition self.now.bytes.now raw.now }
        requires short { length self.now.bytes.now ≤ most_bytes }
        ensures value { IfOk result (λ k. known.known_value self.now.bytes.now k
            ≡ value_on (slots_seen self.now.bytes.now self.now.tables.now) (ids_seen last.old) (rows.position_seen self.now.bytes.now raw.now)) }
        ensures last { OnOk result (ids_seen last.new ≡ last_on (rows.position_seen self.now.bytes.now raw.now) (ids_seen last.old)) }
        ensures sound { IfOk result (known.HasKnown self.now.bytes.now) }
    {
        match raw {
            Some(raw) => self.term(alloc, last, raw),
            None => Ok(Known::Default),
        }
    }
}

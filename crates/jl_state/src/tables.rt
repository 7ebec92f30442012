//! The slots of the lookup tables.
ghost use Rattle.std.specs.Prelude.{◌≡◌, ◌<◌, ◌≤◌, ◌^◌, ◌++◌, None, IfOk, OnOk, length, map, slice_index_or};
ghost use Rattle.jl_base.specs.Limits.{most_bytes};
ghost use Rattle.jl_base.specs.Results.{Gives, some_or};
ghost use Rattle.jl_rows.specs.Decoder as rows_decoder;
ghost use Rattle.jl_rows.specs.Seen as rows;
ghost use Rattle.jl_rows.specs.Values as values;
ghost use Rattle.jl_state.specs.KnownTerms.{tail_value, HasTail};
ghost use Rattle.jl_state.specs.Steps as steps;
ghost use Rattle.jl_state.specs.Extents.{text_in, slot_seen, IsSound, AreSound};
ghost use Rattle.jl_state.specs.Seen.{slots_seen, ids_seen, AreTables, HasIri};

use crate::Extent;
use crate::known::KnownTail;
use crate::tag::is_tag;
use jl_base::Kind;
use jl_rows::{Options, RawIri, RawTail};

/// The slots of the three lookup tables, by their ids; no slot of the id 0 is ever filled. Eight bytes a slot.
#[derive(Debug, Drop)]
pub struct Tables {
    pub names: Vec<Extent>,
    pub prefixes: Vec<Extent>,
    pub datatypes: Vec<Extent>,
}

/// The ids of the last IRI's prefix and name, 0 before any was given.
#[derive(Clone, Copy, Debug)]
pub struct LastIds {
    pub prefix: u64,
    pub name: u64,
}

/// The tables over the bytes in which their texts lie, and the options under which terms are looked up.
#[derive(Clone, Copy)]
pub(crate) struct Lookup<'a> {
    pub bytes: &'a [u8],
    pub tables: &'a Tables,
    pub options: &'a Options,
}

impl Lookup<'_> {
    // The slot of an id, where it is filled.
    #[inline]
    fn filled(&self, slots: &[Extent], id: u64) -> Result<Extent, Kind>
        requires { AreSound self.now.bytes.now slots.now }
        ensures exact { Gives (text_in self.now.bytes.now) result
            (some_or (slice_index_or (map (slot_seen self.now.bytes.now) slots.now) id None) Kind.NoEntry) }
        ensures sound { IfOk result (IsSound self.now.bytes.now) }
        ensures below { OnOk result (id < length slots.now) }
    {
        if id >= slots.len() as u64 {
            return Err(Kind::NoEntry);
        }
        let slot = slots[id as usize];
        if slot.is_filled() {
            Ok(slot)
        } else {
            Err(Kind::NoEntry)
        }
    }

    // The prefix's text: empty before any prefix id was given.
    #[inline]
    fn prefix(&self, id: u64) -> Result<Extent, Kind>
        requires { AreTables self.now.bytes.now self.now.tables.now }
        ensures exact { Gives (text_in self.now.bytes.now) result
            (values.prefix_text (slots_seen self.now.bytes.now self.now.tables.now) id) }
        ensures sound { IfOk result (IsSound self.now.bytes.now) }
    {
        if id == 0 {
            return Ok(Extent::empty());
        }
        self.filled(&self.tables.prefixes, id)
    }

    /// The prefix and the name of the IRI that has these ids.
    #[inline(always)]
    pub fn iri(&self, ids: LastIds) -> Result<(Extent, Extent), Kind>
        requires { AreTables self.now.bytes.now self.now.tables.now }
        ensures exact { Gives (λ i. text_in self.now.bytes.now i.0 ++ text_in self.now.bytes.now i.1) result
            (steps.text_at (slots_seen self.now.bytes.now self.now.tables.now) (ids_seen ids)) }
        ensures sound { IfOk result (HasIri self.now.bytes.now) }
        ensures below { OnOk result (ids.name ≤ rows_decoder.most_entries) }
    {
        let prefix = self.prefix(ids.prefix)?;
        let name = self.filled(&self.tables.names, ids.name)?;
        Ok((prefix, name))
    }

    // The end of a literal.
    #[inline(always)]
    pub fn tail(&self, tail: RawTail) -> Result<KnownTail, Kind>
        requires tables { AreTables self.now.bytes.now self.now.tables.now }
        requires inside { rows.HasTail self.now.bytes.now tail }
        requires short { length self.now.bytes.now ≤ most_bytes }
        ensures exact { Gives (tail_value self.now.bytes.now) result
            (values.tail_of (slots_seen self.now.bytes.now self.now.tables.now) (rows.ending_seen self.now.bytes.now tail)) }
        ensures sound { IfOk result (HasTail self.now.bytes.now) }
    {
        match tail {
            RawTail::Simple => Ok(KnownTail::Simple),
            RawTail::Lang(span) => {
                let at = span.at as usize;
                if is_tag(&self.bytes[at..at + span.len as usize]) {
                    Ok(KnownTail::Lang(Extent::of(self.bytes, span)))
                } else {
                    Err(Kind::BadLangtag)
                }
            }
            RawTail::Typed(id) => {
                let datatype = self.filled(&self.tables.datatypes, u64::from(id))?;
                Ok(KnownTail::Typed(datatype))
            }
        }
    }
}

impl LastIds {
    /// The ids once an IRI was read: its own, or by the rule for 0.
    #[inline]
    pub fn after(self, iri: RawIri) -> LastIds
        requires { self.name < 2 ^ 63 }
        ensures { ids_seen result ≡ steps.ids_after (rows.ids_seen iri) (ids_seen self) }
    {
        LastIds {
            prefix: if iri.prefix == 0 {
                self.prefix
            } else {
                u64::from(iri.prefix)
            },
            name: if iri.name == 0 {
                self.name + 1
            } else {
                u64::from(iri.name)
            },
        }
    }
}

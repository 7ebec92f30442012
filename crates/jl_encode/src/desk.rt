//! The lookup tables, and the ids that the rules for 0 go by.
ghost use Rattle.std.specs.Prelude.{◌≡◌, ◌<◌, ◌+◌, ◌-◌, ◌^◌, IfOk, is_none};
ghost use Rattle.jl_encoding.specs.Slots.{unless_given};
ghost use Rattle.jl_encode.specs.Desks as desks;
ghost use Rattle.jl_encode.specs.Putting as putting;
ghost use Rattle.jl_encode.specs.Putting.{Puts};
ghost use Rattle.jl_encode.specs.Stated.{ids_stated};

use crate::refusal::Refusal;
use crate::split::halves;
use crate::stated::IriIds;
use crate::texts::{Texts, id_behind};
use jl_rows::Table;
use std::alloc::{AllocError, Global};
use std::marker::Model;

/// The lookup tables, the ids of the last IRI, and the number of the item that is being written, from 1. Hidden: the item
/// asked for the empty prefix, and uses no slot for it.
#[derive(Debug, Drop)]
pub(crate) struct Desk {
    names: Texts,
    prefixes: Texts,
    datatypes: Texts,
    prefix: u64,
    name: u64,
    item: u64,
    hidden: bool,
}

impl Model for Desk {
    ghost use Rattle.jl_encode.specs.Desks as desks;
    ghost use Rattle.jl_encode.specs.Held.{desk_coded};

    ghost Value = { desks.Desk };

    ghost coded = { desk_coded };

    ghost view = { λ d. record { names = d.names; prefixes = d.prefixes; datatypes = d.datatypes; prefix = d.prefix; name = d.name; item = d.item; hidden = d.hidden } };
}

// An id as it is written: 0 where 0 gives it.
#[inline]
fn id_unless(given: u64, id: u64) -> u64
    ensures { result ≡ unless_given given id }
{
    if given == id { 0 } else { id }
}

impl Desk {
    /// The desk of a first item, with tables of these sizes.
    pub fn new(alloc: Global, names: u64, prefixes: u64, datatypes: u64) -> Result<Desk, AllocError>
        ensures { IfOk result (λ d. d ≡ desks.new_desk names prefixes datatypes) }
    {
        Ok(Desk {
            names: Texts::new(alloc, names)?,
            prefixes: Texts::new(alloc, prefixes)?,
            datatypes: Texts::new(alloc, datatypes)?,
            prefix: 0,
            name: 0,
            item: 1,
            hidden: false,
        })
    }

    /// The number of the item that is being written.
    pub fn item(&self) -> u64
        ensures { result ≡ self.now.item }
    {
        self.item
    }

    /// The next item uses no slot yet.
    pub fn for_next(&mut self)
        requires { self.old.item < 2 ^ 64 - 1 }
        ensures { self.new ≡ desks.for_next self.old }
    {
        self.item += 1;
        self.hidden = false;
    }

    /// Whether the item uses all slots for prefixes, and asked for the empty prefix besides.
    pub fn is_overfull(&self) -> bool
        ensures { result ≡ desks.is_overfull self.now }
    {
        self.hidden && self.prefixes.is_full(self.item)
    }

    /// The id of a text in a table.
    pub fn put_text(&mut self, out: &mut Vec<u8>, table: Table, text: &[u8]) -> Result<u64, Refusal>
        ensures { Puts (putting.put_text table text.now self.old) (λ n. n) out.old.items out.new.items self.new result }
    {
        let item = self.item;
        match table {
            Table::Name => self.names.put(out, table, text, item),
            Table::Prefix => self.prefixes.put(out, table, text, item),
            Table::Datatype => self.datatypes.put(out, table, text, item),
        }
    }

    /// The id of a prefix.
    pub fn put_prefix(&mut self, out: &mut Vec<u8>, text: &[u8]) -> Result<u64, Refusal>
        ensures { Puts (putting.put_prefix text.now self.old) (λ n. n) out.old.items out.new.items self.new result }
    {
        if text.is_empty() && self.prefix == 0 {
            self.hidden = true;
            return Ok(0);
        }
        self.hidden = self.hidden && !text.is_empty();
        self.put_text(out, Table::Prefix, text)
    }

    // The ids of an IRI as they are written, which are then the last ones.
    fn ids(&mut self, prefix: u64, name: u64) -> IriIds
        ensures ids { ids_stated result ≡ putting.ids_behind prefix name self.old }
        ensures kept { self.new ≡ desks.with_ids prefix name self.old }
    {
        let ids = IriIds {
            prefix: id_unless(self.prefix, prefix),
            name: id_behind(self.name, name),
        };
        self.prefix = prefix;
        self.name = name;
        ids
    }

    /// The ids of an IRI.
    pub fn put_iri(&mut self, out: &mut Vec<u8>, text: &[u8]) -> Result<IriIds, Refusal>
        ensures { Puts (putting.put_iri text.now self.old) ids_stated out.old.items out.new.items self.new result }
    {
        let (prefix, name) = halves(text);
        let prefix = self.put_prefix(out, prefix)?;
        let name = self.put_text(out, Table::Name, name)?;
        Ok(self.ids(prefix, name))
    }
}

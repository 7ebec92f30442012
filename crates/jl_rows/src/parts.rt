//! What the fields of a message said.
ghost use Rattle.std.specs.Prelude.{◌≡◌, ◌<◌};
ghost use Rattle.std.specs.Option.{option_map};
ghost use Rattle.jl_base.specs.Spans.{IsInside, text_of};
ghost use Rattle.jl_rows.specs.Messages as table;
ghost use Rattle.jl_rows.specs.Reading as spec;
ghost use Rattle.jl_rows.specs.Seen.{HasFound, HasPosition, HasTail, ending_seen, found_seen, ids_seen, position_seen};

use crate::row::{RawIri, RawTail, RawTerm};
use jl_base::Span;

/// What a known field says.
#[derive(Clone, Copy, Debug)]
pub enum Part {
    Number(u64),
    Text(Span),
    Said(RawTerm),
}

/// How many groups a message may have.
pub const GROUPS: usize = 9;

/// What the groups of a message say.
pub type Parts = [Option<Part>; GROUPS];

/// The groups of a message that was read, and the bytes that its texts lie in.
#[derive(Clone, Copy, Debug)]
pub struct Found<'a> {
    pub bytes: &'a [u8],
    pub parts: Parts,
}

impl Found<'_> {
    // A number's low 32 bits, or 0 where none stands.
    pub fn number(&self, group: usize) -> u32
        requires { group < table.groups }
        ensures { result ≡ spec.number_32 (spec.part (found_seen self.now) group) }
    {
        match self.parts[group] {
            Some(Part::Number(n)) => (n % 4_294_967_296) as u32,
            _ => 0,
        }
    }

    // Whether a number stands that isn't 0.
    pub fn flag(&self, group: usize) -> bool
        requires { group < table.groups }
        ensures { result ≡ spec.flag (spec.part (found_seen self.now) group) }
    {
        match self.parts[group] {
            Some(Part::Number(n)) => n != 0,
            _ => false,
        }
    }

    // A text, or the empty one where none stands.
    pub fn text(&self, group: usize) -> Span
        requires group { group < table.groups }
        requires inside { HasFound self.now }
        ensures exact { text_of self.now.bytes.now result ≡ spec.text (spec.part (found_seen self.now) group) }
        ensures inside { IsInside self.now.bytes.now result }
    {
        match self.parts[group] {
            Some(Part::Text(span)) => span,
            _ => Span { at: 0, len: 0 },
        }
    }

    // A term, where one stands.
    pub fn term(&self, group: usize) -> Option<RawTerm>
        requires group { group < table.groups }
        requires inside { HasFound self.now }
        ensures exact { position_seen self.now.bytes.now result ≡ spec.term (spec.part (found_seen self.now) group) }
        ensures inside { HasPosition self.now.bytes.now result }
    {
        match self.parts[group] {
            Some(Part::Said(t)) => Some(t),
            _ => None,
        }
    }

    // An IRI's ids, where an IRI stands.
    pub fn ids(&self, group: usize) -> Option<RawIri>
        requires { group < table.groups }
        ensures { option_map ids_seen result ≡ spec.ids (spec.part (found_seen self.now) group) }
    {
        match self.parts[group] {
            Some(Part::Said(RawTerm::Iri(i))) => Some(i),
            _ => None,
        }
    }

    // The end of a literal: its tag, its datatype, or neither.
    pub fn ending(&self, group: usize) -> RawTail
        requires group { group < table.groups }
        requires inside { HasFound self.now }
        ensures exact { ending_seen self.now.bytes.now result ≡ spec.ending (spec.part (found_seen self.now) group) }
        ensures inside { HasTail self.now.bytes.now result }
    {
        match self.parts[group] {
            Some(Part::Text(span)) => RawTail::Lang(span),
            Some(Part::Number(n)) => RawTail::Typed((n % 4_294_967_296) as u32),
            _ => RawTail::Simple,
        }
    }
}

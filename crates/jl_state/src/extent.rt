//! Where a text lies, in eight bytes, with what is known of how it is written.
ghost use Rattle.std.specs.Prelude.{◌≡◌, ◌≢◌, ◌↔◌, ◌≤◌, ◌++◌, ℕ, List, IfOk, IsTrue, OnOk, length};
ghost use Rattle.jl_base.specs.Limits.{most_bytes};
ghost use Rattle.jl_base.specs.Spans.{text_of, IsInside};
ghost use Rattle.jl_rows.specs.Carries.{Grows};
ghost use Rattle.jl_state.specs.Carries.{CarriesSlot, CarriesText};
ghost use Rattle.jl_state.specs.Extents.{text_in, slot_seen, mark_of, IsFilled, IsMark, IsSound, IsHeld, IsEmpty};
ghost use Rattle.jl_state.specs.Texts.{slot_text};

use jl_base::{Space, Span};
use jl_text::{is_clean_iri, is_xsd_string};
use std::alloc::AllocError;

/// Where a text lies in a file of at most 2^30 bytes. The two bits of `at` above its place say how an IRI of this text
/// is written: 0 as it is, 1 perhaps with escapes, 2 as it is, and it is xsd:string. A length of 2^32 - 1 is a slot
/// that isn't filled.
#[derive(Clone, Copy, Debug)]
pub struct Extent {
    at: u32,
    len: u32,
}

/// A slot that isn't filled.
pub(crate) const UNFILLED: Extent = Extent {
    at: 0,
    len: u32::MAX,
};

const MARK: u32 = 1 << 30;

const ESCAPED: u32 = 1;

const XSD_STRING: u32 = 2;

impl Extent {
    /// No text at all, as the prefix has before any prefix id.
    pub fn empty() -> Extent
        ensures { IsEmpty result }
    {
        Extent { at: 0, len: 0 }
    }

    /// A text of which nothing is known but where it lies.
    pub fn of(bytes: &[u8], span: Span) -> Extent
        requires inside { IsInside bytes.now span }
        requires short { length bytes.now ≤ most_bytes }
        ensures text { text_in bytes.now result ≡ text_of bytes.now span }
        ensures held { IsHeld bytes.now result }
    {
        if span.len == 0 {
            return Extent { at: 0, len: 0 };
        }
        Extent {
            at: span.at as u32 + MARK * ESCAPED,
            len: span.len,
        }
    }

    /// A text, with what is found of how it is written.
    pub fn marked(bytes: &[u8], span: Span) -> Extent
        requires inside { IsInside bytes.now span }
        requires short { length bytes.now ≤ most_bytes }
        ensures text { text_in bytes.now result ≡ text_of bytes.now span }
        ensures sound { IsSound bytes.now result }
        ensures filled { IsFilled result }
    {
        if span.len == 0 {
            return Extent { at: 0, len: 0 };
        }
        let at = span.at as usize;
        let text = &bytes[at..at + span.len as usize];
        Extent {
            at: span.at as u32 + MARK * mark(text),
            len: span.len,
        }
    }

    /// Where the text lies.
    #[inline]
    pub fn span(self) -> Span
        ensures text { (bytes : List ℕ) → text_of bytes result ≡ text_in bytes self }
        ensures inside { (bytes : List ℕ) → IsHeld bytes self → IsInside bytes result }
    {
        Span {
            at: u64::from(self.at % MARK),
            len: self.len,
        }
    }

    /// The text.
    #[inline]
    pub fn text(self, bytes: &[u8]) -> &[u8]
        requires { IsHeld bytes.now self }
        ensures { result.now ≡ text_in bytes.now self }
    {
        let at = (self.at % MARK) as usize;
        &bytes[at..at + self.len as usize]
    }

    /// An IRI of this text is written as it is.
    #[inline]
    pub fn is_clean(self) -> bool
        ensures { IsTrue result ↔ (mark_of self ≢ 1) }
    {
        self.at / MARK != ESCAPED
    }

    /// Nothing is to be known of the text: an IRI has it as it is, and it isn't xsd:string. Of two texts this is one
    /// test.
    #[inline]
    pub fn is_plain(self) -> bool
        ensures { IsTrue result ↔ (mark_of self ≡ 0) }
    {
        self.at < MARK
    }

    /// The text is xsd:string.
    #[inline]
    pub fn is_xsd_string(self) -> bool
        ensures { IsTrue result ↔ (mark_of self ≡ 2) }
    {
        self.at / MARK == XSD_STRING
    }

    // The same text after the bytes of another space, with what is known of how it is written. A place is below 2^30:
    // where there is none left, this is want of memory.
    pub(crate) fn carried(self, from: &Space, into: &mut Space) -> Result<Extent, AllocError>
        requires { IsHeld from.now self }
        ensures carries { IfOk result (CarriesText from.now into.new self) }
        ensures after { OnOk result (into.new ≡ into.old ++ text_in from.now self) }
        ensures grows { Grows into.old into.new }
    {
        let at = into.bytes().len();
        if at >= MARK as usize {
            return Err(AllocError);
        }
        into.append(from.text(self.span()))?;
        Ok(Extent {
            at: at as u32 + self.at / MARK * MARK,
            len: self.len,
        })
    }

    // The same slot, filled or not.
    pub(crate) fn carried_slot(self, from: &Space, into: &mut Space) -> Result<Extent, AllocError>
        requires { IsFilled self → IsSound from.now self }
        ensures carries { IfOk result (CarriesSlot from.now into.new self) }
        ensures after { OnOk result (into.new ≡ into.old ++ slot_text (slot_seen from.now self)) }
        ensures grows { Grows into.old into.new }
    {
        if !self.is_filled() {
            return Ok(self);
        }
        self.carried(from, into)
    }

    /// The slot is filled.
    #[inline]
    pub fn is_filled(self) -> bool
        ensures { IsTrue result ↔ IsFilled self }
    {
        self.len != u32::MAX
    }
}

// What is known of how an IRI of this text is written.
fn mark(text: &[u8]) -> u32
    ensures { IsMark text.now result }
{
    if is_xsd_string(text) {
        return XSD_STRING;
    }
    if is_clean_iri(text) { 0 } else { ESCAPED }
}

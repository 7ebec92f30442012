//! A lookup table: its texts, and which of them the item uses.
ghost use Rattle.std.specs.Prelude.{◌≡◌, ◌<◌, ◌≤◌, ◌+◌, ◌-◌, ◌^◌, [], ◌∷◌, ◌++◌, None, Some, IsTrue, not, nat_lt, length, find, is_none, slice_get, slice_set, IfOk, IfSome, OnOk, if◌then◌else◌};
ghost use Rattle.jl_rows.specs.Written.{Row};
ghost use Rattle.jl_spell.specs.Frames.{body_of};
ghost use Rattle.jl_encoding.specs.Slots.{numbers_from, unless_given};
ghost use Rattle.jl_encode.specs.Desks.{in_table, in_new, is_mark, new_texts, next_place, place_from};
ghost use Rattle.jl_encode.specs.Held.{texts_in};
ghost use Rattle.jl_encode.specs.Putting.{PutsIn};

use crate::refusal::Refusal;
use indexmap::IndexSet;
use jl_rows::Table;
use jl_spell::push_entry;
use std::alloc::{AllocError, Global};
use std::marker::Model;

// An item has no more bytes.
const MOST_BYTES: usize = 1 << 26;

// How many guesses a table keeps: 2^13.
const GUESSES: usize = 1 << 13;

const GUESS_BITS: u32 = 13;

/// A lookup table: the texts of its slots, for each slot the number of the last item that used it, the slot of its last
/// entry, and guesses at the places of texts.
#[derive(Debug, Drop)]
pub(crate) struct Texts {
    held: IndexSet<Vec<u8>>,
    marks: Vec<u64>,
    size: u64,
    last: u64,
    guesses: Vec<u64>,
}

impl Model for Texts {
    ghost use Rattle.jl_encode.specs.Desks as desks;
    ghost use Rattle.jl_encode.specs.Held.{texts_in, texts_coded};

    ghost Value = { desks.Texts };

    ghost coded = { texts_coded };

    ghost view = { λ t. record { size = t.size; held = texts_in t.held; marks = t.marks.items; last = t.last } };
}

// Whether a text stands at a place.
#[inline]
fn stands_at(held: &IndexSet<Vec<u8>>, text: &[u8], k: u64) -> bool
    ensures place { IsTrue result → place_from 0 text.now (texts_in held.now) ≡ Some k }
    ensures within { IsTrue result → k < 2 ^ 63 }
{
    if k >= held.len() as u64 {
        return false;
    }
    held.as_slice()[k as usize].as_slice() == text
}

// Where a text stands, from 0. The guess is looked at first.
#[inline]
fn place(held: &IndexSet<Vec<u8>>, text: &[u8], guess: u64) -> Option<u64>
    ensures exact { result ≡ place_from 0 text.now (texts_in held.now) }
    ensures within { IfSome result (λ k. k < 2 ^ 63) }
{
    if stands_at(held, text, guess) {
        return Some(guess);
    }
    let _len = held.len();
    match held.get_index_of(text) {
        None => None,
        Some(k) => Some(k as u64),
    }
}

// A number that a text of less than four bytes is.
fn short_number(text: &[u8]) -> u32 {
    let mut number = 0u32;
    for byte in text {
        number = number.wrapping_mul(256).wrapping_add(u32::from(*byte));
    }
    number
}

// Where the guess for a text is kept: by its length and its last bytes, so that most texts have one of their own.
#[inline]
fn guess_index(text: &[u8]) -> usize {
    let last = match text.last_chunk::<4>() {
        Some(bytes) => u32::from_le_bytes(*bytes),
        None => short_number(text),
    };
    let number = u64::from(last).wrapping_add(text.len() as u64);
    (number.wrapping_mul(0x9E37_79B9_7F4A_7C15) >> (64 - GUESS_BITS)) as usize
}

// The place where a text stood when it was last asked for, or some other place.
#[inline]
fn guess_at(guesses: &[u64], i: usize) -> u64 {
    match guesses.get(i) {
        Some(k) => *k,
        None => 0,
    }
}

#[inline]
fn keep_guess(guesses: &mut Vec<u64>, i: usize, k: u64) {
    if i < guesses.len() {
        guesses[i] = k;
    }
}

// Puts a new text into the slot at a place, or behind the others.
fn enter(held: &mut IndexSet<Vec<u8>>, alloc: Global, k: u64, text: &[u8]) -> Result<(), AllocError>
    requires { place_from 0 text.now (texts_in held.old) ≡ None }
    ensures { OnOk result (texts_in held.new ≡ (if nat_lt k (length (texts_in held.old)) then slice_set (texts_in held.old) k text.now else texts_in held.old ++ text.now ∷ [])) }
{
    let len = held.len() as u64;
    let text = Vec::from_slice(alloc, text)?;
    held.insert_full(text)?;
    if k < len {
        held.swap_remove_index(k as usize);
    }
    Ok(())
}

// Whether the item used the slot at a place.
#[inline]
fn is_used(marks: &[u64], item: u64, k: u64) -> bool
    ensures { result ≡ is_mark item (slice_get marks.now k) }
{
    match marks.get(k as usize) {
        None => false,
        Some(mark) => *mark == item,
    }
}

// The first place of these that the item doesn't use.
fn first_unused(marks: &[u64], item: u64, from: u64, to: u64) -> Option<u64>
    ensures within { IfSome result (λ k. k < to) }
    ensures exact { result ≡ find (λ k. not (is_mark item (slice_get marks.now k))) (numbers_from from (to - from)) }
{
    for k in from..to {
        if !is_used(marks, item, k) {
            return Some(k);
        }
    }
    None
}

// The same in turn from behind the last entry's place on, and then from the first.
fn next_unused(marks: &[u64], item: u64, last: u64, size: u64) -> Option<u64>
    ensures within { IfSome result (λ k. k < size) }
    ensures exact { result ≡ find (λ k. not (is_mark item (slice_get marks.now k))) (numbers_from last (size - last) ++ numbers_from 0 size) }
{
    if let Some(k) = first_unused(marks, item, last, size) {
        return Some(k);
    }
    first_unused(marks, item, 0, size)
}

// Marks the slot at a place as used by the item.
#[inline]
fn mark(marks: &mut Vec<u64>, item: u64, k: u64)
    ensures { marks.new.items ≡ slice_set marks.old.items k item }
{
    let k = k as usize;
    if k < marks.len() {
        marks[k] = item;
    }
}

// The id of an entry's row, or of a name in an IRI, by the last one.
#[inline]
pub(crate) fn id_behind(last: u64, id: u64) -> u64
    ensures { result ≡ unless_given (last + 1) id }
{
    if last < id && id - last == 1 { 0 } else { id }
}

impl Texts {
    /// The table of this size, before any entry.
    pub fn new(alloc: Global, size: u64) -> Result<Texts, AllocError>
        ensures { IfOk result (λ t. t ≡ new_texts size) }
    {
        let places = size as usize;
        let held = IndexSet::with_capacity(alloc, places.saturating_add(1))?;
        let mut marks = Vec::new(alloc);
        marks.resize(places, 0)?;
        let mut guesses = Vec::new(alloc);
        guesses.resize(GUESSES, 0)?;
        Ok(Texts {
            held,
            marks,
            size,
            last: 0,
            guesses,
        })
    }

    /// Whether the item uses all slots.
    pub fn is_full(&self, item: u64) -> bool
        ensures { result ≡ is_none (next_place item self.now) }
    {
        next_unused(&self.marks, item, self.last, self.size).is_none()
    }

    // A text that the table doesn't hold.
    fn put_new(
        &mut self,
        out: &mut Vec<u8>,
        table: Table,
        text: &[u8],
        item: u64,
    ) -> Result<u64, Refusal>
        requires { place_from 0 text.now self.old.held ≡ None }
        ensures { PutsIn (in_new item table text.now self.old (next_place item self.old)) out.old.items out.new.items self.new result }
    {
        let Some(k) = next_unused(&self.marks, item, self.last, self.size) else {
            return Err(Refusal::TooWide);
        };
        if text.len() > MOST_BYTES {
            return Err(Refusal::TooWide);
        }
        let alloc = *out.allocator();
        push_entry(out, table, id_behind(self.last, k + 1), text)?;
        enter(&mut self.held, alloc, k, text)?;
        mark(&mut self.marks, item, k);
        self.last = k + 1;
        keep_guess(&mut self.guesses, guess_index(text), k);
        Ok(k + 1)
    }

    /// The id of a text that the item uses. Where the table doesn't hold it yet, its entry is appended.
    pub fn put(
        &mut self,
        out: &mut Vec<u8>,
        table: Table,
        text: &[u8],
        item: u64,
    ) -> Result<u64, Refusal>
        ensures { PutsIn (in_table item table text.now self.old) out.old.items out.new.items self.new result }
    {
        let i = guess_index(text);
        let guess = guess_at(&self.guesses, i);
        let Some(k) = place(&self.held, text, guess) else {
            return self.put_new(out, table, text, item);
        };
        mark(&mut self.marks, item, k);
        if k != guess {
            keep_guess(&mut self.guesses, i, k);
        }
        Ok(k + 1)
    }
}

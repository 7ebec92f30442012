//! The decoding of rows, one after another: the state after them, what was written of their items, and how many items
//! they state.
ghost use Rattle.std.specs.Prelude.{◌≡◌, ℕ, List, [], ◌+◌, ◌<◌, ◌≤◌, ◌^◌, IfOk, OnOk, length};
ghost use Rattle.jl_base.specs.Limits.{most_bytes};
ghost use Rattle.jl_rows.specs.Heads.{ArePassed};
ghost use Rattle.jl_state.specs.States.{opening};
ghost use Rattle.jl_rows.specs.Seen.{options_seen, row_seen, HasRow};
ghost use Rattle.jl_state.specs.Steps.{step};
ghost use Rattle.jl_state.specs.Lawful.{state_seen, IsLawful};
ghost use Rattle.jl_lines.specs.Kept.{Keeps};
ghost use Rattle.jl_lines.specs.Counts.{none_counted};
ghost use Rattle.jl_lines.specs.Going.{TakesRow, counted};

use crate::line::Repeats;
use crate::page::Page;
use crate::writing::Writing;
use jl_base::Fault;
use jl_rows::{Options, Row};
use jl_state::{State, Stated, Stop};
use std::alloc::{AllocError, Global};
use std::mem;

/// How many bytes of lines are handed to the sink at once, or somewhat more.
const LONG: usize = 1 << 17;

/// How many items of each sort.
#[derive(Clone, Copy, Debug, PartialEq, Eq)]
pub struct Counts {
    pub statements: u64,
    pub namespaces: u64,
}

/// A state, and what was made of the items before it. The page has what was written and not given yet.
#[derive(Debug, Drop)]
pub struct Decoding {
    pub state: State,
    pub page: Page,
    pub counts: Counts,
    pub writing: Writing,
}

/// Why no further row is taken.
#[derive(Clone, Copy, Debug)]
pub enum Refused {
    /// The file's first fault.
    Malformed(Fault),
    NoMemory,
}

impl Decoding {
    /// The state before the first row, under options that passed the checks of a first row, and nothing made yet.
    pub fn opening(
        alloc: Global,
        bytes: &[u8],
        options: &Options,
        writing: Writing,
    ) -> Result<Decoding, AllocError>
        requires { ArePassed bytes.now options.now }
        ensures exact { IfOk result (λ d. state_seen bytes.now d.state ≡ opening (options_seen bytes.now options.now)) }
        ensures kept { IfOk result (Keeps bytes.now) }
        ensures options { IfOk result (λ d. d.state.options ≡ options.now) }
        ensures empty { IfOk result (λ d. d.page.lines ≡ []) }
        ensures none { IfOk result (λ d. d.counts ≡ none_counted) }
        ensures writing { IfOk result (λ d. d.writing ≡ writing) }
    {
        let state = State::opening(alloc, bytes, options)?;
        Ok(Decoding::from_state(alloc, state, writing))
    }

    /// A decoding that goes on from a state, with nothing made yet. Takes no memory.
    pub fn from_state(alloc: Global, state: State, writing: Writing) -> Decoding
        ensures kept { (bytes : List ℕ) → IsLawful bytes state → Keeps bytes result }
        ensures state { result.state ≡ state }
        ensures empty { result.page.lines ≡ [] }
        ensures none { result.counts ≡ none_counted }
        ensures writing { result.writing ≡ writing }
    {
        let counts = Counts {
            statements: 0,
            namespaces: 0,
        };
        Decoding {
            state,
            page: Page::new(alloc),
            counts,
            writing,
        }
    }

    /// Begins anew from the state as it stands, whoever changed it: what was made is forgotten, and the page's memory is
    /// used again.
    pub fn restart(&mut self)
        ensures kept { (bytes : List ℕ) → IsLawful bytes self.old.state → Keeps bytes self.new }
        ensures state { self.new.state ≡ self.old.state }
        ensures empty { self.new.page.lines ≡ [] }
        ensures none { self.new.counts ≡ none_counted }
        ensures writing { self.new.writing ≡ self.old.writing }
    {
        self.page.clear();
        self.counts = Counts {
            statements: 0,
            namespaces: 0,
        };
    }

    /// Hands out the page with its lines, and goes on with another one, whose lines are forgotten and whose memory is
    /// used.
    pub fn change_page(&mut self, page: Page) -> Page
        ensures page { result ≡ self.old.page }
        ensures kept { (bytes : List ℕ) → IsLawful bytes self.old.state → Keeps bytes self.new }
        ensures state { self.new.state ≡ self.old.state }
        ensures empty { self.new.page.lines ≡ [] }
        ensures counts { self.new.counts ≡ self.old.counts }
        ensures writing { self.new.writing ≡ self.old.writing }
    {
        let mut next = page;
        next.clear();
        mem::replace(&mut self.page, next)
    }

    // One row's items.
    #[inline(always)]
    pub(crate) fn row(&mut self, alloc: Global, bytes: &[u8], row: &Row) -> Result<(), Stop>
        requires kept { Keeps bytes.now self.old }
        requires inside { HasRow bytes.now row.now }
        requires short { length bytes.now ≤ most_bytes }
        requires few { counted self.old < 2 ^ 63 }
        ensures exact { TakesRow bytes.now (step (options_seen bytes.now self.old.state.options) (row_seen bytes.now row.now) (state_seen bytes.now self.old.state)) self.old self.new result }
        ensures kept { OnOk result (Keeps bytes.now self.new) }
        ensures options { self.new.state.options ≡ self.old.state.options }
        ensures writing { self.new.writing ≡ self.old.writing }
        ensures few { counted self.new ≤ counted self.old + 1 }
    {
        let repeats = Repeats::of(bytes, row);
        match self.state.step(alloc, bytes, row)? {
            Stated::Nothing => {}
            Stated::Statement => {
                self.counts.statements += 1;
                self.writing
                    .statement(&mut self.page, bytes, &self.state, repeats)?;
            }
            Stated::Namespace { name, prefix, iri } => {
                self.counts.namespaces += 1;
                self.writing
                    .namespace(&mut self.page, bytes, name, prefix, iri)?;
            }
        }
        Ok(())
    }

    // The lines are to be given.
    #[inline]
    pub(crate) fn is_long(&self) -> bool {
        self.page.len() >= LONG
    }
}

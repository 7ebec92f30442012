//! What a run has asked for, or written.
ghost use Rattle.std.specs.Prelude.{◌≡◌, ◌⊎◌, ℕ, true, false, slice_index_or, OnOk};
ghost use Rattle.jl_sym_laws.specs.Summaries as sums;
ghost use Rattle.jl_sym.specs.Marking.{is_marked, IsSlotOf};
ghost use Rattle.jl_sym.specs.Seen.{need_seen};

use crate::demand::{Kept, Need};
use crate::relative_id::RelativeId;
use jl_rows::{Options, Table};
use jl_state::Position;
use std::alloc::{AllocError, Global};

/// A mark for each slot, for each number of entries after the incoming last one, and for each thing that is kept. Its
/// memory is used again from run to run.
#[derive(Debug, Drop)]
pub struct Marks {
    names: Vec<bool>,
    names_after: Vec<bool>,
    prefixes: Vec<bool>,
    prefixes_after: Vec<bool>,
    datatypes: Vec<bool>,
    subject: bool,
    predicate: bool,
    object: bool,
    graph: bool,
    open_graph: bool,
}

// Marks a number, where there is room for it.
#[inline]
fn set(marks: &mut [bool], i: u32)
    ensures { (k : ℕ) → slice_index_or marks.new k false ≡ true → (slice_index_or marks.old k false ≡ true) ⊎ (k ≡ i) }
{
    let i = i as usize;
    if i < marks.len() {
        marks[i] = true;
    }
}

// Whether a number is marked.
#[inline(always)]
fn has(marks: &[bool], i: u32) -> bool
    ensures { result ≡ slice_index_or marks.now i false }
{
    let i = i as usize;
    if i >= marks.len() {
        return false;
    }
    marks[i]
}

// So many numbers, and none marked.
fn reset(marks: &mut Vec<bool>, size: u32) -> Result<(), AllocError>
    ensures { OnOk result ((k : ℕ) → slice_index_or marks.new.items k false ≡ false) }
{
    marks.clear();
    marks.resize(size as usize + 1, false)?;
    Ok(())
}

impl Marks {
    /// No marks, and no memory yet.
    pub fn new(alloc: Global) -> Marks
        ensures { (need : sums.Need) → is_marked need result ≡ false }
    {
        Marks {
            names: Vec::new(alloc),
            names_after: Vec::new(alloc),
            prefixes: Vec::new(alloc),
            prefixes_after: Vec::new(alloc),
            datatypes: Vec::new(alloc),
            subject: false,
            predicate: false,
            object: false,
            graph: false,
            open_graph: false,
        }
    }

    /// Forgets the marks, and makes room for those of a run under these options. Takes memory only where tables are larger
    /// than they ever were.
    pub(crate) fn start(&mut self, options: &Options) -> Result<(), AllocError>
        ensures { OnOk result ((need : sums.Need) → is_marked need self.new ≡ false) }
    {
        reset(&mut self.names, options.names)?;
        reset(&mut self.names_after, options.names)?;
        reset(&mut self.prefixes, options.prefixes)?;
        reset(&mut self.prefixes_after, 0)?;
        reset(&mut self.datatypes, options.datatypes)?;
        self.subject = false;
        self.predicate = false;
        self.object = false;
        self.graph = false;
        self.open_graph = false;
        Ok(())
    }

    /// Whether it was asked that this is there.
    #[inline(always)]
    pub(crate) fn has_kept(&self, kept: Kept) -> bool
        ensures { result ≡ is_marked (need_seen (Need.Has kept)) self.now }
    {
        match kept {
            Kept::LastAt(Position::Subject) => self.subject,
            Kept::LastAt(Position::Predicate) => self.predicate,
            Kept::LastAt(Position::Object) => self.object,
            Kept::LastAt(Position::Graph) => self.graph,
            Kept::OpenGraph => self.open_graph,
        }
    }

    /// Whether a slot was asked for, or written.
    #[inline(always)]
    pub(crate) fn has_slot(&self, table: Table, id: RelativeId) -> bool
        ensures { result ≡ is_marked (need_seen (Need.Filled table id)) self.now }
    {
        match table {
            Table::Name => match id {
                RelativeId::Given(n) => has(&self.names, n),
                RelativeId::After(k) => has(&self.names_after, k),
            },
            Table::Prefix => match id {
                RelativeId::Given(n) => has(&self.prefixes, n),
                RelativeId::After(k) => has(&self.prefixes_after, k),
            },
            Table::Datatype => match id {
                RelativeId::Given(n) => has(&self.datatypes, n),
                RelativeId::After(_) => false,
            },
        }
    }

    /// Whether a need is marked.
    #[inline(always)]
    pub(crate) fn has(&self, need: Need) -> bool
        ensures { result ≡ is_marked (need_seen need) self.now }
    {
        match need {
            Need::Filled(table, id) => self.has_slot(table, id),
            Need::Has(kept) => self.has_kept(kept),
            Need::Fits(_, _) => false,
            Need::Lacks(_) => false,
            Need::Never => false,
        }
    }

    #[inline]
    fn mark_kept(&mut self, kept: Kept)
        ensures { (need : sums.Need) → is_marked need self.new ≡ true → (is_marked need self.old ≡ true) ⊎ (need ≡ need_seen (Need.Has kept)) }
    {
        match kept {
            Kept::LastAt(Position::Subject) => self.subject = true,
            Kept::LastAt(Position::Predicate) => self.predicate = true,
            Kept::LastAt(Position::Object) => self.object = true,
            Kept::LastAt(Position::Graph) => self.graph = true,
            Kept::OpenGraph => self.open_graph = true,
        }
    }

    /// Marks a slot, where there is room for it.
    #[inline]
    pub(crate) fn mark_slot(&mut self, table: Table, id: RelativeId)
        ensures { (need : sums.Need) → is_marked need self.new ≡ true → (is_marked need self.old ≡ true) ⊎ (need ≡ need_seen (Need.Filled table id)) }
    {
        match table {
            Table::Name => match id {
                RelativeId::Given(n) => set(&mut self.names, n),
                RelativeId::After(k) => set(&mut self.names_after, k),
            },
            Table::Prefix => match id {
                RelativeId::Given(n) => set(&mut self.prefixes, n),
                RelativeId::After(k) => set(&mut self.prefixes_after, k),
            },
            Table::Datatype => match id {
                RelativeId::Given(n) => set(&mut self.datatypes, n),
                RelativeId::After(_) => {}
            },
        }
    }

    /// Marks the slot that an entry fills, where its id is known. One that counts on from the last entry is no reference's,
    /// which counts on from the last reference.
    #[inline]
    pub(crate) fn mark_entry(&mut self, table: Table, id: RelativeId)
        ensures { (need : sums.Need) → is_marked need self.new ≡ true → (is_marked need self.old ≡ true) ⊎ IsSlotOf table id need }
    {
        match id {
            RelativeId::Given(n) => self.mark_slot(table, RelativeId::Given(n)),
            RelativeId::After(_) => (),
        }
    }

    /// Marks a need, where there is room for it.
    #[inline]
    pub(crate) fn mark(&mut self, need: Need)
        ensures { (n : sums.Need) → is_marked n self.new ≡ true → (is_marked n self.old ≡ true) ⊎ (n ≡ need_seen need) }
    {
        match need {
            Need::Filled(table, id) => self.mark_slot(table, id),
            Need::Has(kept) => self.mark_kept(kept),
            Need::Fits(_, _) => {}
            Need::Lacks(_) => {}
            Need::Never => {}
        }
    }
}

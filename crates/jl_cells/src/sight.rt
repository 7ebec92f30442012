ghost use Rattle.std.specs.Prelude.{◌≡◌, MatchOption, IfSome, None, is_some};
ghost use Rattle.once_cell.specs.Once.{cell_name};
ghost use Rattle.jl_cells.specs.Knowledge.{Sees, AreOne};

use once_cell::race::{Note, OnceBox};
use std::marker::Model;

/// What a pass knows of one cell: a note, which only proofs can read, and a flag, which says whether the note knows
/// the cell's value.
#[derive(Drop)]
pub(crate) struct Sight<T> {
    note: Note<T>,
    is_known: bool,
}

impl<T> Model for Sight<T> {
    ghost use Rattle.std.specs.Prelude.{◌≡◌, is_some};
    ghost use Rattle.jl_cells.specs.Knowledge.{Seen, seen_coded};

    ghost Value = { Seen T };

    ghost coded = { seen_coded T.code };

    ghost view = { λ s. record { cell = s.note.cell; value = s.note.known } };

    ghost invariant = { λ s. s.is_known ≡ is_some s.note.known };
}

impl<T> Sight<T> {
    pub(crate) fn of(cell: &OnceBox<T>) -> Sight<T>
        ensures { result ≡ record { cell = cell_name cell.now; value = None } }
    {
        Sight {
            note: cell.note(),
            is_known: false,
        }
    }

    pub(crate) fn is_known(&self) -> bool
        ensures { result ≡ is_some self.now.value }
    {
        self.is_known
    }

    pub(crate) fn look<'a>(&mut self, cell: &'a OnceBox<T>) -> Option<&'a T>
        requires { self.old.cell ≡ cell_name cell.now }
        ensures { MatchOption result
            ((self.old.value ≡ None) × (self.new ≡ self.old))
            (λ value. Sees self.old value.now self.new) }
    {
        let found = cell.get_as(&mut self.note);
        self.is_known = found.is_some();
        found
    }

    /// Both stay as they were.
    pub(crate) fn meet(&mut self, other: &mut Sight<T>)
        requires { self.old.cell ≡ other.old.cell }
        ensures same { (self.new ≡ self.old) × (other.new ≡ other.old) }
        ensures one { AreOne self.old.value other.old.value }
    {
        self.note.compare(other.note.again());
    }
}

impl<T: Drop> Sight<T> {
    pub(crate) fn put<'a>(&mut self, cell: &'a OnceBox<T>, value: Box<T>) -> &'a T
        requires { self.old.cell ≡ cell_name cell.now }
        ensures { Sees self.old result.now self.new }
    {
        let first = cell.get_or_init_as(move || value, &mut self.note);
        self.is_known = true;
        first
    }
}

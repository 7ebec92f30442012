ghost use Rattle.std.specs.Prelude.{◌≡◌, ◌<◌, length, IfOk, IfNone, IfSome, None};
ghost use Rattle.std.specs.FinMap.{empty, get};
ghost use Rattle.jl_cells.specs.Knowledge.{Keeps, Learns, Meet};

use crate::Pass;
use crate::row::{look_at, meet_all, put_at};
use crate::sight::Sight;
use once_cell::race::OnceBox;
use std::alloc::{AllocError, Global};
use std::marker::Model;

/// A row of cells, each empty or with a value that stays for good. Contracts see it as the names of its cells.
#[derive(Drop)]
pub struct Cells<T: Drop> {
    cells: Vec<OnceBox<T>>,
}

impl<T: Drop> Model for Cells<T> {
    ghost use Rattle.std.specs.Prelude.{ℕ, List, map};
    ghost use Rattle.once_cell.specs.Once.{cell_name};

    ghost Value = { List ℕ };

    ghost view = { λ c. map cell_name c.cells.items };
}

impl<T: Drop> Cells<T> {
    /// So many empty cells, numbered from 0. They take eight bytes each.
    pub fn new(alloc: Global, count: u64) -> Result<Cells<T>, AllocError>
        ensures { IfOk result (λ cells. length cells ≡ count) }
    {
        let mut cells = Vec::new(alloc);
        for _ in 0..count {
            cells.push(OnceBox::new(alloc))?;
        }
        Ok(Cells { cells })
    }

    pub fn count(&self) -> u64
        ensures { result ≡ length self.now }
    {
        self.cells.len() as u64
    }

    /// A pass that knows no cell.
    pub fn pass(&self, alloc: Global) -> Result<Pass<T>, AllocError>
        ensures { IfOk result (λ pass. pass ≡ record { cells = self.now; known = empty }) }
    {
        let mut sights = Vec::new(alloc);
        for cell in &self.cells {
            sights.push(Sight::of(cell))?;
        }
        Ok(Pass { sights })
    }

    /// The value of a cell, where it has one.
    pub fn look<'a>(&'a self, pass: &mut Pass<T>, i: u64) -> Option<&'a T>
        requires cells { pass.old.cells ≡ self.now }
        requires within { i < length self.now }

        // It finds nothing only where the pass knew nothing, and then leaves the pass as it was.
        ensures nothing { IfNone result ((get pass.old.known i ≡ None) × (pass.new ≡ pass.old)) }
        ensures found { IfSome result (λ value. Learns pass.old i value.now pass.new) }
        ensures kept { Keeps pass.old pass.new }
    {
        look_at(&self.cells, &mut pass.sights, i as usize)
    }

    /// The value of a cell for good: the one given, unless another caller's stands there.
    pub fn put<'a>(&'a self, pass: &mut Pass<T>, i: u64, value: Box<T>) -> &'a T
        requires cells { pass.old.cells ≡ self.now }
        requires within { i < length self.now }
        ensures value { Learns pass.old i result.now pass.new }
        ensures kept { Keeps pass.old pass.new }
    {
        put_at(&self.cells, &mut pass.sights, i as usize, value)
    }

    /// Where both passes know a cell, they know one value. Both stay as they were: they are lent as `&mut` since a
    /// proof can read what a pass knows by no other means.
    pub fn meets(&self, a: &mut Pass<T>, b: &mut Pass<T>)
        requires cells { (a.old.cells ≡ self.now) × (b.old.cells ≡ self.now) }
        ensures same { (a.new ≡ a.old) × (b.new ≡ b.old) }
        ensures meet { Meet a.old b.old }
    {
        meet_all(&mut a.sights, &mut b.sights);
    }
}

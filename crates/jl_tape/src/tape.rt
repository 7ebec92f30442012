//! A list of rows at their places, which are read where they stay.
ghost use Rattle.std.specs.Prelude.{◌≡◌, ◌-◌, ◌<◌, ◌≤◌, ◌^◌, [], Some, length, slice_get, IfOk, OnErr};
ghost use Rattle.jl_tape.specs.Tapes.{TakesNext};

use jl_base::{Kind, Place};
use jl_rows::{Row, next_row_into};
use std::alloc::{AllocError, Global};
use std::marker::Model;

/// A row at its place.
#[derive(Clone, Copy, Debug)]
pub struct PlacedRow {
    pub place: Place,
    pub row: Row,
}

/// Rows at their places. It takes 248 bytes a row, and keeps them for further rows when it is cleared.
#[derive(Debug, Drop)]
pub struct Tape {
    // Those after the first `len` are left from before.
    rows: Vec<PlacedRow>,
    len: usize,
}

impl Model for Tape {
    ghost use Rattle.std.specs.Prelude.{◌≤◌, List, length, take};
    ghost use Rattle.jl_tape.specs.declared.tape.PlacedRow.{PlacedRow};

    ghost Value = { List PlacedRow };

    ghost view = { λ t. take t.len t.rows.items };

    ghost invariant = { λ t. t.len ≤ length t.rows.items };
}

// What stands in a slot before its first row.
const BLANK: PlacedRow = PlacedRow {
    place: Place { frame: 0, row: 0 },
    row: Row::GraphEnd,
};

impl Tape {
    /// No rows, and no memory yet.
    pub fn new(alloc: Global) -> Tape
        ensures { result ≡ [] }
    {
        Tape {
            rows: Vec::new(alloc),
            len: 0,
        }
    }

    /// Forgets the rows. Their memory is used again for those that come.
    pub fn clear(&mut self)
        ensures { self.new ≡ [] }
    {
        self.len = 0;
    }

    /// How many rows there are.
    #[inline]
    pub fn len(&self) -> usize
        ensures { result ≡ length self.now }
    {
        self.len
    }

    /// The row that has `i` rows before it.
    #[inline]
    pub fn at(&self, i: usize) -> &PlacedRow
        requires { i < length self.now }
        ensures { slice_get self.now i ≡ Some result.now }
    {
        &self.rows[i]
    }

    /// The next row of a frame that ends at `end` becomes the tape's last, and is said to stand at this place of the file.
    /// The answer is the reader's. Takes memory only for more rows than there ever were.
    #[inline]
    pub fn read_next(
        &mut self,
        bytes: &[u8],
        at: usize,
        end: usize,
        place: Place,
    ) -> Result<Result<Option<usize>, Kind>, AllocError>
        requires start { at ≤ end }
        requires inside { end ≤ length bytes.now }
        requires short { end - at < 2 ^ 32 }
        ensures next { IfOk result (TakesNext bytes.now at end place self.old self.new) }
        ensures same { OnErr result (self.new ≡ self.old) }
    {
        if self.len == self.rows.len() {
            self.rows.push(BLANK)?;
        }
        let slot = &mut self.rows[self.len];
        slot.place = place;
        let read = next_row_into(bytes, at, end, &mut slot.row);
        if let Ok(Some(_)) = read {
            self.len += 1;
        }
        Ok(read)
    }
}

//! Entries of the lookup tables in a summary.
ghost use Rattle.std.specs.Prelude.{◌≡◌, ◌+◌, ◌<◌, ◌≤◌, ◌^◌};
ghost use Rattle.jl_base.specs.Spans.{IsInside, text_of};
ghost use Rattle.jl_sym_laws.specs.SmallSteps as small;
ghost use Rattle.jl_sym.specs.Asking.{Grows};
ghost use Rattle.jl_sym.specs.Checked.{options_of, IsHere};
ghost use Rattle.jl_sym.specs.Growth.{last_entry, with_last_entry, IsFit};
ghost use Rattle.jl_sym.specs.Seen.{growing_seen};

use crate::asker::{Asker, Here};
use crate::growing::Growing;
use crate::marks::Marks;
use crate::relative_id::RelativeId;
use crate::summary::Write;
use jl_base::Span;
use jl_rows::Table;
use jl_state::{Extent, Stop};

impl<'a> Growing<'a> {
    // The id of the last entry of a table.
    #[inline]
    fn last_entry(&self, table: Table) -> RelativeId
        ensures { result ≡ last_entry table self.now }
    {
        match table {
            Table::Name => self.name_entry,
            Table::Prefix => self.prefix_entry,
            Table::Datatype => self.datatype_entry,
        }
    }

    #[inline]
    fn set_entry(&mut self, table: Table, id: RelativeId)
        ensures { self.new ≡ with_last_entry table id self.old }
    {
        match table {
            Table::Name => self.name_entry = id,
            Table::Prefix => self.prefix_entry = id,
            Table::Datatype => self.datatype_entry = id,
        }
    }

    /// An entry of a table, which is a whole row.
    pub fn entry(
        &mut self,
        here: &Here<'a>,
        marks: &mut Marks,
        table: Table,
        written: u32,
        text: Span,
    ) -> Result<(), Stop>
        requires here { IsHere here.now }
        requires fit { IsFit here.now.bytes.now self.old marks.old }
        requires rows { self.old.rows < 2 ^ 31 }
        requires inside { IsInside here.now.bytes.now text }
        ensures grows { Grows (options_of here.now) here.now.place.now (small.small_step (small.Entry table written (text_of here.now.bytes.now text)))
            (growing_seen here.now.bytes.now self.old) (growing_seen here.now.bytes.now self.new) result }
        ensures fit { IsFit here.now.bytes.now self.new marks.new }
        ensures rows { self.new.rows ≤ self.old.rows + 1 }
    {
        let id = self.last_entry(table).entry(written);
        let asker = Asker {
            here,
            moment: self.rows,
            writes: &self.writes,
        };
        asker.fits(&mut self.demands, table, id)?;
        self.writes.push(Write {
            moment: self.rows,
            table,
            id,
            text: Extent::marked(here.bytes, text),
        })?;
        marks.mark_entry(table, id);
        self.set_entry(table, id);
        self.rows += 1;
        Ok(())
    }
}

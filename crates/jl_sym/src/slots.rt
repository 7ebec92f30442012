//! What a row asks of the slots of its references.
ghost use Rattle.std.specs.Prelude.{◌≡◌, ◌⊎◌, ◌++◌, ◌∷◌, [], true, Ok, OnOk, OnErr};
ghost use Rattle.jl_sym_laws.specs.Cutting as cutting;
ghost use Rattle.jl_sym_laws.specs.SmallSteps as small;
ghost use Rattle.jl_sym_laws.specs.Summaries as sums;
ghost use Rattle.jl_sym.specs.Asking.{Asks};
ghost use Rattle.jl_sym.specs.Checked.{earlier_of, options_of};
ghost use Rattle.jl_sym.specs.declared.marks.Marks.{Marks};
ghost use Rattle.jl_sym.specs.Marking.{is_marked, AreAsked};
ghost use Rattle.jl_sym.specs.Seen.{id_seen, demands_seen};

use crate::asker::{Asker, Here};
use crate::demand::{Demand, Need};
use crate::marks::Marks;
use crate::relative_id::{RelativeId, is_reference_in};
use jl_base::{Fault, Kind};
use jl_rows::Table;
use jl_state::Stop;
use std::alloc::AllocError;

// Asks for the slot of a reference, where the list of demands has to grow. It stands apart, so that otherwise no call is made.
#[inline(never)]
fn ask_slot_later(
    here: &Here<'_>,
    moment: u32,
    demands: &mut Vec<Demand>,
    marks: &mut Marks,
    table: Table,
    id: RelativeId,
) -> Result<(), AllocError>
    ensures demands { OnOk result (demands_seen demands.new.items ≡ demands_seen demands.old.items
        ++ record { moment = moment; fault = record { place = here.now.place.now; kind = Kind.NoEntry }; need = sums.Filled table (id_seen id) } ∷ []) }
    ensures marked { OnOk result ((need : sums.Need) → is_marked need marks.new ≡ true → (is_marked need marks.old ≡ true) ⊎ (need ≡ sums.Filled table (id_seen id))) }
    ensures kept { OnErr result ((demands.new.items ≡ demands.old.items) × (marks.new ≡ marks.old)) }
{
    let fault = Fault {
        place: *here.place,
        kind: Kind::NoEntry,
    };
    let need = Need::Filled(table, id);
    demands.push(Demand {
        fault,
        need,
        moment,
    })?;
    marks.mark_slot(table, id);
    Ok(())
}

impl Asker<'_, '_> {
    // Asks for the slot of a reference. It stands apart, since a run asks for each slot once at most.
    #[inline(never)]
    fn ask_slot(
        &self,
        demands: &mut Vec<Demand>,
        marks: &mut Marks,
        table: Table,
        id: RelativeId,
    ) -> Result<(), AllocError>
        requires good { AreAsked (earlier_of self.now) (demands_seen demands.old.items) marks.old }
        requires made { cutting.IsMadeReference table (id_seen id) }
        ensures asks { OnOk result (Asks (options_of self.now.here.now) (earlier_of self.now) self.now.here.now.place.now (demands_seen demands.old.items)
            (small.demand self.now.here.now.place.now Kind.NoEntry (sums.Filled table (id_seen id)) ∷ []) (demands_seen demands.new.items) (Ok tt)) }
        ensures good { AreAsked (earlier_of self.now) (demands_seen demands.new.items) marks.new }
    {
        let (here, moment) = (self.here, self.moment);
        if demands.len() == demands.capacity() {
            ask_slot_later(here, moment, demands, marks, table, id)?;
            return Ok(());
        }
        self.push(demands, Kind::NoEntry, Need::Filled(table, id))?;
        marks.mark_slot(table, id);
        Ok(())
    }

    // Whether a reference of this id can be one to its table.
    #[inline(always)]
    fn is_reference(&self, table: Table, id: RelativeId) -> bool
        ensures { result ≡ cutting.is_reference_in (options_of self.now.here.now) table (id_seen id) }
    {
        is_reference_in(self.here.options, table, id)
    }

    /// The slot of a reference must be filled, which an entry of the run may have done.
    #[inline(always)]
    pub fn filled(
        &self,
        demands: &mut Vec<Demand>,
        marks: &mut Marks,
        table: Table,
        id: RelativeId,
    ) -> Result<(), Stop>
        requires good { AreAsked (earlier_of self.now) (demands_seen demands.old.items) marks.old }
        requires made { cutting.IsMadeReference table (id_seen id) }
        ensures asks { Asks (options_of self.now.here.now) (earlier_of self.now) self.now.here.now.place.now (demands_seen demands.old.items)
            (small.demand self.now.here.now.place.now Kind.NoEntry (sums.Filled table (id_seen id)) ∷ []) (demands_seen demands.new.items) result }
        ensures good { AreAsked (earlier_of self.now) (demands_seen demands.new.items) marks.new }
        ensures fits { OnOk result (cutting.is_reference_in (options_of self.now.here.now) table (id_seen id) ≡ true) }
    {
        if !self.is_reference(table, id) {
            return Err(Stop::Fault(Kind::NoEntry));
        }
        if marks.has_slot(table, id) {
            return Ok(());
        }
        self.ask_slot(demands, marks, table, id)?;
        Ok(())
    }
}

//! What composing is for: laws, each the contract of a function that does nothing.
ghost use Rattle.jl_compose.specs.Blocks.{LeavesInTurn, LeavesSettle};
ghost use Rattle.jl_compose.specs.Laws.{AlikeLead, AlikeSum, BothLead, BothSum, GroupsAlike, LeadsOnSettled, SumsLead, SumsOnSettled, UnitFirst, UnitSecond};

/// Where a summary or a block sums some rows and a second one further rows, both in one sum all of them, on every
/// settled state, the first fault included; and where they lead to what the decoder finds in each, both in one lead to
/// what it finds in all.
pub fn both_sum()
    ensures sums { BothSum }
    ensures leads { BothLead }
{}

/// A summary of rows sums them on more states than settled ones, and so it leads. What sums rows leads to what the
/// decoder finds in them, and what acts alike does both alike.
pub fn sums_lead()
    ensures sums { SumsOnSettled }
    ensures leads { LeadsOnSettled }
    ensures summed { SumsLead }
    ensures alike { AlikeSum }
    ensures alike_leads { AlikeLead }
{}

/// With no rows before them or after them, rows do what they did.
pub fn unit_is_neutral()
    ensures first { UnitFirst }
    ensures second { UnitSecond }
{}

/// Three in one act alike, whichever two were put into one first.
pub fn groups_alike()
    ensures { GroupsAlike }
{}

/// The leaves of two blocks in turn act as those of both in one list. Lawful leaves lead from settled states to settled
/// ones.
pub fn leaves()
    ensures turns { LeavesInTurn }
    ensures settle { LeavesSettle }
{}

//! The writes that stay: a pass from the first one to the last.
ghost use Rattle.std.specs.Prelude.{◌≡◌, ℕ, [], ◌-◌, ◌^◌, ◌<◌, false, length, IfOk, OnOk, slice_index_or};
ghost use Rattle.jl_sym_laws.specs.Compacting.{kept_writes};
ghost use Rattle.jl_sym_laws.specs.Composing.{AreBefore};
ghost use Rattle.jl_sym.specs.Held.{AreTexts};
ghost use Rattle.jl_compact.specs.Marks.{AreMarkable, AreFlags, AreUpTo};
ghost use Rattle.jl_compact.specs.Parts.{writes_seen};

use crate::unseen::{address, find_unseen};
use jl_sym::Write;
use std::alloc::{AllocError, Global};

// Keeps the first write to each address, which fills the slot, and those that something may see.
fn keep(
    bytes: &[u8],
    writes: &[Write],
    moments: &[u32],
    flags: &[bool],
    filled: &mut [bool],
    kept: &mut Vec<Write>,
) -> Result<(), AllocError>
    requires room { AreMarkable (length filled.old) 0 (writes_seen bytes.now writes.now) }
    requires texts { AreTexts bytes.now writes.now }
    requires flags { AreFlags moments.now (writes_seen bytes.now writes.now) flags.now }
    requires fresh { (c : ℕ) → c < length filled.old → slice_index_or filled.old c false ≡ false }
    requires none { kept.old.items ≡ [] }
    ensures texts { OnOk result (AreTexts bytes.now kept.new.items) }
    ensures exact { OnOk result (writes_seen bytes.now kept.new.items ≡ kept_writes moments.now [] (writes_seen bytes.now writes.now)) }
{
    let mut rest = writes;
    let mut unseen = flags;
    'by_write: while let Some((write, later)) = rest.split_first() {
        let Some((flag, more)) = unseen.split_first() else {
            return Ok(());
        };
        let at = address(write.table, write.id);
        rest = later;
        unseen = more;
        let goes = filled[at] & *flag;
        if goes {
            continue;
        }
        kept.push(*write)?;
        filled[at] = true;
    }
    Ok(())
}

/// The writes that something may see. So many marks have one for each address.
pub fn needed_writes(
    alloc: Global,
    bytes: &[u8],
    writes: &[Write],
    moments: &[u32],
    room: usize,
) -> Result<Vec<Write>, AllocError>
    requires room { AreMarkable room 0 (writes_seen bytes.now writes.now) }
    requires early { AreBefore (2 ^ 32 - 1) (writes_seen bytes.now writes.now) }
    requires moments { AreUpTo (2 ^ 32 - 1) moments.now }
    requires texts { AreTexts bytes.now writes.now }
    ensures texts { IfOk result (λ ws. AreTexts bytes.now ws.items) }
    ensures exact { IfOk result (λ ws. writes_seen bytes.now ws.items ≡ kept_writes moments.now [] (writes_seen bytes.now writes.now)) }
{
    let mut marks = vec![in alloc; u32::MAX; room]?;
    let mut flags = vec![in alloc; false; writes.len()]?;
    find_unseen(bytes, writes, moments, &mut marks, &mut flags);
    let mut filled = vec![in alloc; false; room]?;
    let mut kept = Vec::new(alloc);
    keep(bytes, writes, moments, &flags, &mut filled, &mut kept)?;
    Ok(kept)
}

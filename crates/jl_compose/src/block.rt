//! What some runs do, one after another.
ghost use Rattle.std.specs.Prelude.{◌≡◌, ◌+◌, ◌<◌, ◌≤◌, ◌^◌, ◌++◌, ◌∷◌, [], length, IfErr, IfOk, OnOk};
ghost use Rattle.jl_apply.specs.Applying.{Applies, WantsFor};
ghost use Rattle.jl_base.specs.Limits.{most_bytes};
ghost use Rattle.jl_rows.specs.Heads.{ArePassed};
ghost use Rattle.jl_rows.specs.Seen.{options_seen};
ghost use Rattle.jl_state.specs.Lawful as states;
ghost use Rattle.jl_state.specs.Lawful.{state_seen};
ghost use Rattle.jl_sym.specs.Lawful.{IsLawful};
ghost use Rattle.jl_sym_laws.specs.Staying.{IsSettled};
ghost use Rattle.jl_compose.specs.Blocks.{all_rows, leave_triple_term, seen_all, AreLawful, IsBounded};
ghost use Rattle.jl_compose.specs.Turns.{seen_act, ActsAlike, ActsInTurn};

use crate::flat::flat;
use crate::shared::Shared;
use crate::size::{Size, is_bounded, size_of};
use jl_apply::Halt;
use jl_compact::{compact, size};
use jl_rows::Options;
use jl_state::State;
use jl_sym::Summary;
use std::alloc::{AllocError, Global};

/// What some runs do, one after another: their summaries, which other blocks share, or one summary in place of these,
/// where they would be too large.
#[derive(Drop)]
pub struct Block {
    /// In the order of their runs.
    pub leaves: Vec<Shared<Summary>>,
}

// A block of one summary.
fn one(alloc: Global, summary: Summary) -> Result<Block, AllocError>
    ensures { IfOk result (λ b. b.leaves.items ≡ summary ∷ []) }
{
    let mut leaves = Vec::with_capacity(alloc, 1)?;
    leaves.push(Shared::new(alloc, summary)?)?;
    Ok(Block { leaves })
}

// The leaves of both.
fn joined(
    alloc: Global,
    first: &[Shared<Summary>],
    second: &[Shared<Summary>],
) -> Result<Block, AllocError>
    ensures { IfOk result (λ b. b.leaves.items ≡ first.now ++ second.now) }
{
    let mut leaves = Vec::with_capacity(alloc, first.len() + second.len())?;
    for leaf in first {
        leaves.push(leaf.again()?)?;
    }
    for more in second {
        leaves.push(more.again()?)?;
    }
    Ok(Block { leaves })
}

impl Block {
    /// What one run does, compacted where it holds more than a block may.
    pub fn of(
        alloc: Global,
        bytes: &[u8],
        options: &Options,
        summary: Summary,
    ) -> Result<Block, AllocError>
        requires { IsLawful (options_seen bytes.now options.now) bytes.now summary }
        ensures acts { IfOk result (λ b. ActsAlike (options_seen bytes.now options.now) (seen_all bytes.now b.leaves.items) (seen_act bytes.now summary)) }
        ensures lawful { IfOk result (λ b. AreLawful (options_seen bytes.now options.now) bytes.now b.leaves.items) }
        ensures bounded { IfOk result (λ b. IsBounded (options_seen bytes.now options.now) b.leaves.items) }
        ensures rows { IfOk result (λ b. all_rows b.leaves.items ≡ summary.rows) }
    {
        let (writes, demands) = size(&summary);
        if is_bounded(options, Size { writes, demands }) {
            return one(alloc, summary);
        }
        let mut summary = summary;
        compact(alloc, bytes, options, &mut summary)?;
        one(alloc, summary)
    }

    /// Two blocks, one after the other. It shares their leaves, and takes memory for their places alone, as long as both
    /// together hold at most 1024 writes for each slot of the tables, and 256 demands for each and 8 more. Where they hold
    /// more, it makes one summary of all.
    pub fn both(
        alloc: Global,
        bytes: &[u8],
        options: &Options,
        first: &Block,
        second: &Block,
    ) -> Result<Block, AllocError>
        requires options { ArePassed bytes.now options.now }
        requires first { AreLawful (options_seen bytes.now options.now) bytes.now first.now.leaves.items }
        requires second { AreLawful (options_seen bytes.now options.now) bytes.now second.now.leaves.items }
        requires first_bounded { IsBounded (options_seen bytes.now options.now) first.now.leaves.items }
        requires second_bounded { IsBounded (options_seen bytes.now options.now) second.now.leaves.items }
        requires few { all_rows first.now.leaves.items + all_rows second.now.leaves.items < 2 ^ 32 }
        ensures acts { IfOk result (λ b. ActsInTurn (options_seen bytes.now options.now) (seen_all bytes.now first.now.leaves.items) (seen_all bytes.now second.now.leaves.items) (seen_all bytes.now b.leaves.items)) }
        ensures lawful { IfOk result (λ b. AreLawful (options_seen bytes.now options.now) bytes.now b.leaves.items) }
        ensures bounded { IfOk result (λ b. IsBounded (options_seen bytes.now options.now) b.leaves.items) }
        ensures rows { IfOk result (λ b. all_rows b.leaves.items ≡ all_rows first.now.leaves.items + all_rows second.now.leaves.items) }
    {
        let (a, b) = (size_of(&first.leaves), size_of(&second.leaves));
        let size = Size {
            writes: a.writes + b.writes,
            demands: a.demands + b.demands,
        };
        if is_bounded(options, size) {
            return joined(alloc, &first.leaves, &second.leaves);
        }
        let whole = flat(alloc, bytes, options, &first.leaves, &second.leaves)?;
        one(alloc, whole)
    }

    /// Brings a state over the runs, in place: what their rows do to it, or their first fault. Only a triple term that
    /// is left takes memory. What stops it leaves the state of no use.
    pub fn apply_in(&self, alloc: Global, bytes: &[u8], state: &mut State) -> Result<(), Halt>
        requires lawful { AreLawful (options_seen bytes.now state.old.options) bytes.now self.now.leaves.items }
        requires state { states.IsLawful bytes.now state.old }
        requires settled { IsSettled (options_seen bytes.now state.old.options) (state_seen bytes.now state.old) }
        requires short { length bytes.now ≤ most_bytes }
        ensures exact { Applies bytes.now (seen_all bytes.now self.now.leaves.items (state_seen bytes.now state.old)) state.new result }
        ensures state { OnOk result (states.IsLawful bytes.now state.new) }
        ensures settled { OnOk result (IsSettled (options_seen bytes.now state.new.options) (state_seen bytes.now state.new)) }
        ensures options { state.new.options ≡ state.old.options }
        ensures memory { IfErr result (WantsFor (leave_triple_term bytes.now self.now.leaves.items)) }
    {
        let mut rest = self.leaves.as_slice();
        'leaves: while let Some((leaf, others)) = rest.split_first() {
            jl_apply::apply_in(alloc, leaf.get(), bytes, state)?;
            rest = others;
        }
        Ok(())
    }
}

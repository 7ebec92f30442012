//! The items of a number, one after another.
ghost use Rattle.std.specs.Prelude.{ℕ};
ghost use Rattle.jl_base.specs.Items.{item_of};
ghost use Rattle.jl_made.specs.Items.{HasGroup};

use crate::refilling::refill_item;
use jl_base::{Item, Text};
use std::alloc::{AllocError, Global};
use std::mem;

/// The made items of a number, one after another. Each is made in the memory of the one before it.
#[derive(Debug, Drop)]
pub struct Made {
    alloc: Global,
    number: u64,
    items: u32,
    at: u32,
    item: Item,
    // The group that the subject is of.
    group: u32,
    // A text that isn't used, for its memory.
    spare: Text,
    ghost grouped: { HasGroup number group (item_of item) },
}

// An item that takes no memory.
#[tactic(auto, using(crate::proofs::GroupLemmas::has_group))]
fn no_item(alloc: Global) -> Item
    ensures { (number group : ℕ) → HasGroup number group (item_of result) }
{
    Item::Namespace {
        name: Text::new(alloc),
        iri: Text::new(alloc),
    }
}

impl Made {
    ghost use Rattle.std.specs.Prelude.{◌≡◌, ◌+◌, nat_lt, true, Ok, IfOk, OnOk, OnErr, if◌then◌else◌};
    ghost use Rattle.jl_base.specs.Items.{item_of};
    ghost use Rattle.jl_made.specs.Items.{made_item};
    ghost use Rattle.jl_made.specs.Makers.{making};

    /// Before the first of so many items. Takes no memory.
    pub fn new(alloc: Global, number: u64, items: u32) -> Made
        ensures number { (making result).number ≡ number }
        ensures items { (making result).items ≡ items }
        ensures at { (making result).at ≡ 0 }
    {
        Made {
            alloc,
            number,
            items,
            at: 0,
            item: no_item(alloc),
            group: 0,
            spare: Text::new(alloc),
        }
    }

    // Makes the next item in the memory of the last one. Where memory isn't found an empty one stands there.
    #[tactic(auto, using(crate::proofs::GroupLemmas::of_group, crate::proofs::GroupLemmas::has_group))]
    fn remake(&mut self) -> Result<(), AllocError>
        ensures item { OnOk result (item_of self.new.item ≡ made_item self.old.number self.old.at) }
        ensures number { self.new.number ≡ self.old.number }
        ensures items { self.new.items ≡ self.old.items }
        ensures at { self.new.at ≡ self.old.at }
    {
        let mut item = mem::replace(&mut self.item, no_item(self.alloc));
        let mut group = self.group;
        refill_item(
            self.alloc,
            &mut item,
            &mut self.spare,
            &mut group,
            self.number,
            self.at,
        )?;
        self.group = group;
        self.item = item;
        Ok(())
    }

    /// Makes the next item, and answers whether there was one left to be made. On a refusal the same item comes at the
    /// next call.
    pub fn advance(&mut self) -> Result<bool, AllocError>
        ensures more { IfOk result (λ more. more ≡ nat_lt (making self.old).at (making self.old).items) }
        ensures item { result ≡ Ok true → (making self.new).item ≡ made_item (making self.old).number (making self.old).at }
        ensures at { IfOk result (λ more. (making self.new).at ≡ (if more then (making self.old).at + 1 else (making self.old).at)) }
        ensures refused { OnErr result ((making self.new).at ≡ (making self.old).at) }
        ensures number { (making self.new).number ≡ (making self.old).number }
        ensures items { (making self.new).items ≡ (making self.old).items }
    {
        if self.at >= self.items {
            return Ok(false);
        }
        self.remake()?;
        self.at += 1;
        Ok(true)
    }

    /// The item that was made last; before the first one, an empty declaration.
    #[inline]
    pub fn item(&self) -> &Item
        ensures { item_of result.now ≡ (making self.now).item }
    {
        &self.item
    }
}

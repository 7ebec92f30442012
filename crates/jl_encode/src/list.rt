//! A list of items to a file.
ghost use Rattle.std.specs.Prelude.{◌≡◌, ◌⊎◌, ◌<◌, ◌≤◌, ◌+◌, ◌^◌, [], false, length, Err, IfOk, OnOk, OnErr};
ghost use Rattle.std.specs.List.{AllByRecursion};
ghost use Rattle.jl_base.specs.Causes.{Rose};
ghost use Rattle.jl_base.specs.Items.{items_of};
ghost use Rattle.jl_encoding.specs.Encoding.{options_of};
ghost use Rattle.jl_encoding.specs.Items.{Fits};
ghost use Rattle.jl_encoding.specs.Proper.{IsProperItem};
ghost use Rattle.jl_encode.specs.Answers.{Stands, next_number};
ghost use Rattle.jl_encode.specs.Encoders.{progress};
ghost use Rattle.jl_encode.specs.Lists.{AddsAll, Encodes};
ghost use Rattle.jl_encode.specs.declared.stop.Stop.TheVariants.{WriteFault, Spent, NoMemory};

use crate::{Encoder, Stop};
use jl_base::{Item, Sink};
use jl_encoding::Form;
use std::alloc::Global;

// An encoder behind a pointer: a function that has it in place is slow to prove.
fn boxed(alloc: Global, form: Form, per: u32) -> Result<Box<Encoder>, Stop>
    requires some { 0 < per }
    requires many { per ≤ 65536 }
    ensures stands { IfOk result (λ e. Stands (progress e.value) []) }
    ensures form { IfOk result (λ e. (progress e.value).form ≡ form) }
    ensures per { IfOk result (λ e. (progress e.value).per ≡ per) }
    ensures number { IfOk result (λ e. next_number (progress e.value) ≡ 1) }
    ensures alive { IfOk result (λ e. (progress e.value).spent ≡ false) }
    ensures refused { OnErr result (result ≡ Err NoMemory) }
{
    Ok(Box::new(alloc, Encoder::new(alloc, form, per)?)?)
}

// Adds all items.
fn add_all<K: Sink>(encoder: &mut Encoder, items: &[Item], sink: &mut K) -> Result<(), Stop>
    requires fit { AllByRecursion (Fits (options_of (progress encoder.old).form)) (items_of items.now) }
    requires few { next_number (progress encoder.old) + length items.now ≤ 2 ^ 62 + 1 }
    requires alive { (progress encoder.old).spent ≡ false }
    ensures adds { Stands (progress encoder.old) [] → AllByRecursion IsProperItem (items_of items.now) → AddsAll (progress encoder.old).form (progress encoder.old).per (progress encoder.new) (items_of items.now) (K.held sink.old) (K.held sink.new) result }
    ensures later { K.faults sink.old ≤ K.faults sink.new }
    ensures cause { result ≡ Err WriteFault → Rose (K.faults sink.old) (K.faults sink.new) }
    ensures steady { (result ≡ Err WriteFault) ⊎ (K.faults sink.new ≡ K.faults sink.old) }
    ensures unspent { result ≡ Err Spent → ⊥ }
    ensures alive { OnOk result ((progress encoder.new).spent ≡ false) }
{
    let mut rest = items;
    'items: while let Some((item, behind)) = rest.split_first() {
        encoder.add(item, sink)?;
        rest = behind;
    }
    Ok(())
}

// Adds all items, and writes the last frame.
fn write<K: Sink>(encoder: &mut Encoder, items: &[Item], sink: &mut K) -> Result<(), Stop>
    requires fit { AllByRecursion (Fits (options_of (progress encoder.old).form)) (items_of items.now) }
    requires few { next_number (progress encoder.old) + length items.now ≤ 2 ^ 62 + 1 }
    requires alive { (progress encoder.old).spent ≡ false }
    ensures encodes { Stands (progress encoder.old) [] → AllByRecursion IsProperItem (items_of items.now) → Encodes (progress encoder.old).form (progress encoder.old).per (items_of items.now) (K.held sink.old) (K.held sink.new) result }
    ensures later { K.faults sink.old ≤ K.faults sink.new }
    ensures cause { result ≡ Err WriteFault → Rose (K.faults sink.old) (K.faults sink.new) }
    ensures steady { (result ≡ Err WriteFault) ⊎ (K.faults sink.new ≡ K.faults sink.old) }
    ensures unspent { result ≡ Err Spent → ⊥ }
{
    add_all(encoder, items, sink)?;
    encoder.finish(sink)
}

/// Gives a sink the file of a list of items, with so many items in a frame, by one encoder. Where it stops before, the
/// sink was given a prefix of the file of the first items.
pub fn encode<K: Sink>(
    alloc: Global,
    form: Form,
    per: u32,
    items: &[Item],
    sink: &mut K,
) -> Result<(), Stop>
    requires some { 0 < per }
    requires many { per ≤ 65536 }
    requires fit { AllByRecursion (Fits (options_of form)) (items_of items.now) }
    requires few { length items.now ≤ 2 ^ 62 }
    ensures encodes { AllByRecursion IsProperItem (items_of items.now) → Encodes form per (items_of items.now) (K.held sink.old) (K.held sink.new) result }
    ensures later { K.faults sink.old ≤ K.faults sink.new }
    ensures cause { result ≡ Err WriteFault → Rose (K.faults sink.old) (K.faults sink.new) }
    ensures steady { (result ≡ Err WriteFault) ⊎ (K.faults sink.new ≡ K.faults sink.old) }
    ensures unspent { result ≡ Err Spent → ⊥ }
{
    let mut encoder = boxed(alloc, form, per)?;
    write(&mut encoder, items, sink)
}

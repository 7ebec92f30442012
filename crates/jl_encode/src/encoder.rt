//! The encoder: items in, frames out (Jelly RDF serialization, "Delimited variant of Jelly").
ghost use Rattle.std.specs.Prelude.{◌≡◌, ◌↔◌, ◌⊎◌, ◌<◌, ◌≤◌, ◌+◌, ◌-◌, ◌^◌, true, false, [], List, IfOk, OnOk, OnErr, Err};
ghost use Rattle.jl_base.specs.Causes.{HasCause, Rose};
ghost use Rattle.jl_base.specs.Items.{item_of};
ghost use Rattle.jl_base.specs.Sinks.{AddsFront};
ghost use Rattle.jl_base.specs.Terms as said;
ghost use Rattle.jl_spell.specs.Frames.{frame_of};
ghost use Rattle.jl_encoding.specs.Encoding.{options_of};
ghost use Rattle.jl_encoding.specs.Items.{Fits};
ghost use Rattle.jl_encoding.specs.Proper.{IsProperItem};
ghost use Rattle.jl_encode.specs.Answers.{AddsItem, Finishes, HandsFrame, IfTooWide, Stands, counted, ends_frame, is_done, next_number, with_item};
ghost use Rattle.jl_encode.specs.Encoders.{progress};
ghost use Rattle.jl_encode.specs.Putting.{PutsItem, put_item};
ghost use Rattle.jl_encode.specs.declared.stop.Stop.TheVariants.{Spent, WriteFault};

use crate::Stop;
use crate::count::Count;
use crate::desk::Desk;
use crate::items::put_next;
use crate::lasts::Lasts;
use crate::refusal::Refusal;
use crate::spelling::push_options_row;
use jl_base::{Failed, Item, Sink, write_all};
use jl_encoding::Form;
use jl_spell::varint;
use std::alloc::{AllocError, Global};

#[cfg(test)]
mod tests;

/// A frame is ended once its body has so many bytes.
const FRAME: usize = 1 << 24;

/// How many entries the lookup tables have.
const MOST_NAMES: u64 = 4000;

const MOST_PREFIXES: u64 = 150;

const MOST_DATATYPES: u64 = 32;

/// Writes items to a sink as a Jelly file, one after another, in frames.
///
/// It holds the lookup tables, of up to 4000 names, 150 prefixes and 32 datatypes, the terms of the last statement, and the
/// frame under way, which has less than 2^27 bytes. It is spent once it answered a `Stop` or was finished: then it takes
/// nothing more, and what the sink was given is a front of the file, or all of it.
#[derive(Debug, Drop)]
pub struct Encoder {
    alloc: Global,
    form: Form,
    desk: Desk,
    lasts: Lasts,
    body: Vec<u8>,
    count: Count,
    spent: bool,
}

// Writes a frame after its length.
fn write_frame<K: Sink>(body: &[u8], sink: &mut K) -> Result<(), Failed>
    ensures adds { AddsFront (K.held sink.old) (K.held sink.new) (frame_of body.now) result }
    ensures cause { HasCause (K.faults sink.old) (K.faults sink.new) result }
{
    let (length, len) = varint(body.len() as u64);
    write_all(sink, &length[..len])?;
    write_all(sink, body)
}

impl Encoder {
    /// An encoder to which no item was added. A frame will be ended once it has `per` items, or a body of 2^24 bytes or
    /// more. Takes memory for the tables.
    pub fn new(alloc: Global, form: Form, per: u32) -> Result<Encoder, AllocError>
        requires some { 0 < per }
        requires many { per ≤ 65536 }
        ensures stands { IfOk result (λ e. Stands (progress e) []) }
        ensures form { IfOk result (λ e. (progress e).form ≡ form) }
        ensures per { IfOk result (λ e. (progress e).per ≡ per) }
        ensures number { IfOk result (λ e. next_number (progress e) ≡ 1) }
    {
        let mut body = Vec::new(alloc);
        push_options_row(&mut body, form)?;
        Ok(Encoder {
            alloc,
            form,
            desk: Desk::new(alloc, MOST_NAMES, MOST_PREFIXES, MOST_DATATYPES)?,
            lasts: Lasts::new(),
            body,
            count: Count::new(per),
            spent: false,
        })
    }

    // Puts an item behind the others.
    fn put(&mut self, item: &Item) -> Result<(), Refusal>
        requires { self.old.desk.item < 2 ^ 64 - 1 }
        ensures puts { PutsItem (put_item (item_of item.now) (progress self.old).lasts (progress self.old).desk) (progress self.old).body (progress self.new).body (progress self.new).desk result }
        ensures kept { OnOk result (progress self.new ≡ with_item (item_of item.now) (progress self.new).desk (progress self.new).body (progress self.old)) }
        ensures number { OnOk result (next_number (progress self.new) ≡ next_number (progress self.old) + 1) }
        ensures spent { (progress self.new).spent ≡ (progress self.old).spent }
        ensures form { (progress self.new).form ≡ (progress self.old).form }
        ensures per { (progress self.new).per ≡ (progress self.old).per }
    {
        put_next(
            self.alloc,
            &mut self.desk,
            &mut self.lasts,
            &mut self.body,
            item,
        )
    }

    // Counts an item that was put, and writes the frame that it ends, where it ends one.
    fn hand<K: Sink>(&mut self, sink: &mut K) -> Result<(), Failed>
        ensures hands { HandsFrame (ends_frame (progress self.old)) (progress self.old) (K.held sink.old) (K.held sink.new) result }
        ensures counts { OnOk result (progress self.new ≡ counted (ends_frame (progress self.old)) (progress self.old)) }
        ensures cause { HasCause (K.faults sink.old) (K.faults sink.new) result }
        ensures number { next_number (progress self.new) ≡ next_number (progress self.old) }
        ensures spent { (progress self.new).spent ≡ (progress self.old).spent }
        ensures form { (progress self.new).form ≡ (progress self.old).form }
        ensures per { (progress self.new).per ≡ (progress self.old).per }
    {
        let is_long = self.body.len() >= FRAME;
        if !self.count.ends(is_long) {
            return Ok(());
        }
        write_frame(&self.body, sink)?;
        self.body.clear();
        Ok(())
    }

    /// Adds an item, and writes the frame that it ends, where it ends one.
    ///
    /// An item is too wide where the terms that it doesn't repeat have more than 4000 different names, 150 different
    /// prefixes, the empty one counted, or 32 different datatypes, or where its rows take more than 2^26 bytes. Then, and
    /// where memory isn't found, the sink was given nothing in this call; at a write fault, a front of the frame.
    ///
    /// The bytes are those of the file of items that are proper: texts in UTF-8, language tags in their shape, triple terms
    /// at most 32 deep, the default graph only as a graph, and no triple term there. Of other items nothing is promised but
    /// that the call returns, and why an item was refused.
    pub fn add<K: Sink>(&mut self, item: &Item, sink: &mut K) -> Result<(), Stop>
        requires fits { Fits (options_of (progress self.old).form) (item_of item.now) }
        requires few { next_number (progress self.old) ≤ 2 ^ 62 }
        ensures adds { (is : List said.Item) → Stands (progress self.old) is → IsProperItem (item_of item.now) → AddsItem (progress self.old) (progress self.new) is (item_of item.now) (K.held sink.old) (K.held sink.new) result }
        ensures spent { (result ≡ Err Spent) ↔ ((progress self.old).spent ≡ true) }
        ensures later { K.faults sink.old ≤ K.faults sink.new }
        ensures cause { result ≡ Err WriteFault → Rose (K.faults sink.old) (K.faults sink.new) }
        ensures quiet { OnErr result ((result ≡ Err WriteFault) ⊎ (K.held sink.new ≡ K.held sink.old)) }
        ensures ends { OnErr result ((progress self.new).spent ≡ true) }
        ensures goes_on { OnOk result ((progress self.new).spent ≡ false) }
        ensures steady { (result ≡ Err WriteFault) ⊎ (K.faults sink.new ≡ K.faults sink.old) }
        ensures wide { IfTooWide (progress self.old) (item_of item.now) result }
        ensures number { OnOk result (next_number (progress self.new) ≡ next_number (progress self.old) + 1) }
        ensures form { (progress self.new).form ≡ (progress self.old).form }
        ensures per { (progress self.new).per ≡ (progress self.old).per }
    {
        if self.spent {
            return Err(Stop::Spent);
        }
        self.spent = true;
        let number = self.desk.item();
        match self.put(item) {
            Err(Refusal::TooWide) => return Err(Stop::TooWide(number)),
            Err(Refusal::NoMemory) => return Err(Stop::NoMemory),
            Ok(()) => {}
        }
        let Ok(()) = self.hand(sink) else {
            return Err(Stop::WriteFault);
        };
        self.spent = false;
        Ok(())
    }

    // Whether the frame under way has no item, but some item was added.
    fn is_done(&self) -> bool
        ensures { result ≡ is_done (progress self.now) }
    {
        self.count.items == 0 && self.desk.item() > 1
    }

    /// Writes the frame under way, if it has an item, and takes no more items. Where no item was added it writes a frame
    /// with the options row alone. At a write fault the sink was given a front of that frame. Takes no memory.
    pub fn finish<K: Sink>(&mut self, sink: &mut K) -> Result<(), Stop>
        ensures finishes { (is : List said.Item) → Stands (progress self.old) is → Finishes (progress self.old) is (K.held sink.old) (K.held sink.new) result }
        ensures spent { (result ≡ Err Spent) ↔ ((progress self.old).spent ≡ true) }
        ensures later { K.faults sink.old ≤ K.faults sink.new }
        ensures cause { result ≡ Err WriteFault → Rose (K.faults sink.old) (K.faults sink.new) }
        ensures quiet { OnErr result ((result ≡ Err WriteFault) ⊎ (K.held sink.new ≡ K.held sink.old)) }
        ensures steady { (result ≡ Err WriteFault) ⊎ (K.faults sink.new ≡ K.faults sink.old) }
        ensures refuses { OnErr result ((result ≡ Err WriteFault) ⊎ (result ≡ Err Spent)) }
        ensures ends { (progress self.new).spent ≡ true }
        ensures form { (progress self.new).form ≡ (progress self.old).form }
        ensures per { (progress self.new).per ≡ (progress self.old).per }
    {
        if self.spent {
            return Err(Stop::Spent);
        }
        self.spent = true;
        if self.is_done() {
            return Ok(());
        }
        let Ok(()) = write_frame(&self.body, sink) else {
            return Err(Stop::WriteFault);
        };
        Ok(())
    }
}

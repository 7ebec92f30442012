//! Writes made items as a Jelly file to standard output: `encode_made ITEMS [PER]`.
//!
//! By it the encoder's speed is measured, and others read its files. It ends with 0 where the file was written, with 2
//! where the words ask for nothing, with 4 where standard output failed and with 5 where there was no memory. Only where
//! an item was refused does it end with 1.
#![tactic(auto)]

mod made;
mod words;

ghost use Rattle.std.specs.Prelude.{◌≡◌, ◌<◌, ◌≤◌, ◌+◌, IfOk, OnOk};
ghost use Rattle.std.specs.IoError.{error_kind};
ghost use Rattle.jl_encoding.specs.declared.form.Form.TheVariants.{Triples};
ghost use Rattle.jl_encode.specs.Answers.{next_number};
ghost use Rattle.jl_encode.specs.Encoders.{progress};
ghost use Rattle.jl_base.specs.Items.{item_of};
ghost use Rattle.encode_made.specs.Endings.{IsEndedFor};
ghost use Rattle.encode_made.specs.Made.{IsOfGroup};
ghost use Rattle.encode_made.specs.declared.Ending.TheVariants.{NoMemory};

use jl_base::{Sink, write_all};
use jl_encode::{Encoder, Stop};
use jl_encoding::Form;
use jl_io::{ErrSink, FileShelf};
use made::{Made, refill};
use std::alloc::{AllocError, AllocFailed, Global};
use std::process::ExitCode;
use std::rt::Runtime;
use std::{env, io};
use words::read_words;

// Why the program ends before the file is written.
#[derive(Clone, Copy)]
enum Ending {
    // The words ask for nothing, or can't be read.
    Usage,
    // An item was refused.
    Refused,
    WriteFault,
    NoMemory,
}

impl From<AllocError> for Ending {
    ghost from_gives = { λ _ ending. ending ≡ NoMemory };

    fn from(_error: AllocError) -> Ending {
        Ending::NoMemory
    }
}

impl<T: Drop> From<AllocFailed<T>> for Ending {
    ghost from_gives = { λ _ ending. ending ≡ NoMemory };

    fn from(_error: AllocFailed<T>) -> Ending {
        Ending::NoMemory
    }
}

impl From<io::Error> for Ending {
    ghost from_gives = { λ error ending. IsEndedFor (error_kind error) ending };

    fn from(error: io::Error) -> Ending {
        match error.kind() {
            io::ErrorKind::OutOfMemory => Ending::NoMemory,
            _ => Ending::Usage,
        }
    }
}

impl From<Stop> for Ending {
    fn from(stop: Stop) -> Ending {
        match stop {
            Stop::WriteFault => Ending::WriteFault,
            Stop::NoMemory => Ending::NoMemory,
            Stop::TooWide(_) | Stop::Spent => Ending::Refused,
        }
    }
}

// Adds the made item of a number, which an item is made to be.
fn add<K: Sink>(
    alloc: Global,
    encoder: &mut Encoder,
    made: &mut Made,
    i: u32,
    out: &mut K,
) -> Result<(), Ending>
    requires form { (progress encoder.old).form ≡ Triples }
    requires number { next_number (progress encoder.old) ≡ i + 1 }
    requires group { IsOfGroup made.old.group (item_of made.old.item) }
    ensures form { (progress encoder.new).form ≡ Triples }
    ensures number { OnOk result (next_number (progress encoder.new) ≡ i + 2) }
    ensures group { OnOk result (IsOfGroup made.new.group (item_of made.new.item)) }
{
    refill(alloc, made, i)?;
    encoder.add(&made.item, out)?;
    Ok(())
}

// Adds the first made items.
fn add_all<K: Sink>(
    alloc: Global,
    encoder: &mut Encoder,
    items: u32,
    out: &mut K,
) -> Result<(), Ending>
    requires form { (progress encoder.old).form ≡ Triples }
    requires number { next_number (progress encoder.old) ≡ 1 }
{
    let mut made = Made::new(alloc);
    for i in 0..items {
        add(alloc, encoder, &mut made, i, out)?;
    }
    Ok(())
}

// An encoder behind a pointer: a function that has it in place is slow to prove.
fn encoder(alloc: Global, per: u32) -> Result<Box<Encoder>, Ending>
    requires some { 0 < per }
    requires many { per ≤ 65536 }
    ensures form { IfOk result (λ e. (progress e.value).form ≡ Triples) }
    ensures number { IfOk result (λ e. next_number (progress e.value) ≡ 1) }
{
    Ok(Box::new(alloc, Encoder::new(alloc, Form::Triples, per)?)?)
}

fn finish<K: Sink>(encoder: &mut Encoder, out: &mut K) -> Result<(), Ending> {
    encoder.finish(out)?;
    Ok(())
}

// Writes the first made items, so many in a frame.
fn encode<K: Sink>(alloc: Global, items: u32, per: u32, out: &mut K) -> Result<(), Ending>
    requires some { 0 < per }
    requires many { per ≤ 65536 }
{
    let mut encoder = encoder(alloc, per)?;
    add_all(alloc, &mut encoder, items, out)?;
    finish(&mut encoder, out)
}

fn run<R: Runtime + AllocGlobal>(rt: &R) -> Result<(), Ending> {
    let alloc = rt.alloc();
    let words: Vec<String> = env::args(rt)?.skip(1).collect(alloc)?;
    let Some(wanted) = read_words(&words) else {
        return Err(Ending::Usage);
    };
    let mut out = FileShelf::new(rt, alloc, None, false)?;
    encode(alloc, wanted.items, wanted.per, &mut out)
}

// Tells what words it takes.
fn tell_usage<R: Eprint + Drop>(rt: R) {
    let mut err = ErrSink::new(rt);
    let _told = write_all(&mut err, b"usage: encode_made ITEMS [PER]\n");
}

fn main(rt: HostRuntime) -> ExitCode {
    ExitCode::from(match run(&rt) {
        Ok(()) => 0,
        Err(Ending::Usage) => {
            tell_usage(&rt);
            2
        }
        Err(Ending::Refused) => 1,
        Err(Ending::WriteFault) => 4,
        Err(Ending::NoMemory) => 5,
    })
}

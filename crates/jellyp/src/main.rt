//! The program: its arguments as words, and the devices of the system, for `jl_top` to serve.
//!
//! It ends with the status of that call. Where an argument isn't text it ends with 2, and where there is no memory before
//! that call with 5, and in both cases it has written nothing.
#![tactic(auto)]

ghost use Rattle.std.specs.Prelude.{◌≡◌, false, length, map, drop, vec_len, string_bytes, IfOk};
ghost use Rattle.std.specs.IoError.{error_kind};
ghost use Rattle.jellyp.specs.declared.Refusal.TheVariants.{NoMemory};
ghost use Rattle.jellyp.specs.Refusals.{IsRefusedFor, status_of};
ghost use Rattle.jl_io.specs.FileShelves.{place_of};
ghost use Rattle.jl_io.specs.FileSources.{name_of};
ghost use Rattle.jl_words.specs.Jobs.{job_of, output_of};

use jl_base::Text;
use jl_io::{ErrSink, FileShelf, FileSource};
use jl_top::{Gate, files, output, serve};
use std::alloc::{AllocError, Global};
use std::process::ExitCode;
use std::rt::{Files, Runtime};
use std::thread::Threads;
use std::{env, io};

// Why the program ends before it has served.
#[derive(Clone, Copy)]
enum Refusal {
    // An argument isn't text, or can't be read.
    Usage,
    NoMemory,
}

impl From<AllocError> for Refusal {
    ghost from_gives = { λ _ refusal. refusal ≡ NoMemory };

    fn from(_error: AllocError) -> Refusal {
        Refusal::NoMemory
    }
}

impl From<io::Error> for Refusal {
    ghost from_gives = { λ error refusal. IsRefusedFor (error_kind error) refusal };

    fn from(error: io::Error) -> Refusal {
        match error.kind() {
            io::ErrorKind::OutOfMemory => Refusal::NoMemory,
            _ => Refusal::Usage,
        }
    }
}

// A gate that looks at nothing.
struct Open;

impl Gate for Open {
    fn enter(&self, _worker: u32, _run: u64) {}
}

// The texts of these arguments.
fn texts(alloc: Global, arguments: &[String]) -> Result<Vec<Text>, AllocError>
    ensures { IfOk result (λ texts. texts.items ≡ map string_bytes arguments.now) }
{
    let mut texts = Vec::new(alloc);
    for argument in arguments {
        texts.push(Text::from_bytes(alloc, argument.as_bytes())?)?;
    }
    Ok(texts)
}

// The words: all arguments but the first, which is the program's name.
fn words(alloc: Global, arguments: &[String]) -> Result<Vec<Text>, AllocError>
    ensures { IfOk result (λ words. words.items ≡ map string_bytes (drop 1 arguments.now)) }
{
    match arguments.split_first() {
        Some((_, words)) => texts(alloc, words),
        None => Ok(Vec::new(alloc)),
    }
}

// A source for each file, in order.
fn sources<'a, R: Files>(
    rt: &'a R,
    alloc: Global,
    names: &[Text],
) -> Result<Vec<FileSource<&'a R>>, AllocError>
    ensures number { IfOk result (λ sources. vec_len sources ≡ length names.now) }
    ensures names { IfOk result (λ sources. map name_of sources.items ≡ names.now) }
{
    let mut sources = Vec::new(alloc);
    for name in names {
        sources.push(FileSource::new(rt, name.copy()?))?;
    }
    Ok(sources)
}

// The shelf of the output that the words name, or of standard output.
fn shelf<'a, R: Files + Print>(
    rt: &'a R,
    alloc: Global,
    words: &[Text],
) -> Result<FileShelf<&'a R>, AllocError>
    ensures { IfOk result (λ shelf. place_of shelf ≡ record { name = output_of words.now (job_of words.now); parts = false; part = 1 }) }
{
    match output(words) {
        Some(name) => FileShelf::new(rt, alloc, Some(Text::from_bytes(alloc, name)?), false),
        None => FileShelf::new(rt, alloc, None, false),
    }
}

fn run<R: Runtime + AllocGlobal + Threads + Sync>(rt: &R) -> Result<u8, Refusal> {
    let alloc = rt.alloc();
    let arguments: Vec<String> = env::args(rt)?.collect(alloc)?;
    let words = words(alloc, &arguments)?;
    let mut sources = sources(rt, alloc, files(&words))?;
    let mut out = shelf(rt, alloc, &words)?;
    let mut err = ErrSink::new(rt);
    Ok(serve(rt, alloc, &words, &mut sources, &mut out, &mut err, &Open))
}

// The status that the program ends with.
fn status(ran: Result<u8, Refusal>) -> u8
    ensures { result ≡ status_of ran }
{
    match ran {
        Ok(status) => status,
        Err(Refusal::Usage) => 2,
        Err(Refusal::NoMemory) => 5,
    }
}

fn main(rt: HostRuntime) -> ExitCode {
    ExitCode::from(status(run(&rt)))
}

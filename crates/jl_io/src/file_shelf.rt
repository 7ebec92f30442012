ghost use Rattle.std.specs.Prelude.{◌≡◌, false, None, IfOk, OnOk, string_bytes, if◌then◌else◌};
ghost use Rattle.std.specs.Io.KnownBytes.{WriteAppends};
ghost use Rattle.jl_io.specs.FileShelves.{place_of, next_place, file_name, is_open, contents_of};
ghost use Rattle.jl_base.specs.Causes.{HasCause};
ghost use Rattle.jl_base.specs.Sinks.{TakesSome, Adds, Turns};
ghost use Rattle.jl_base.specs.Sources.{moved};

use jl_base::{Failed, Shelf, Sink, Text};
use std::alloc::{AllocError, Global};
use std::fmt::Write as _;
use std::io::Write;
use std::rt::Files;
use std::{fs, io, str};

/// What a part's name has after the shelf's name: two dots, a number of at most twenty digits, and `jelly`.
const SUFFIX: usize = 27;

/// Standard output, a file, or a file for each part. It tells no parts. A file is made at the first write to it, so
/// that where nothing is written there is none. An open that fails is a write that failed, and so is a name that
/// isn't UTF-8 and a write that takes no byte.
#[derive(Drop)]
pub struct FileShelf<R: Files + Print + Drop> {
    rt: R,
    name: Option<Text>,
    parts: bool,
    part: u64,
    path: String,
    file: Option<R::File>,
    faults: u64,
}

impl<R: Files + Print + Drop> FileShelf<R> {
    /// A shelf on the file of this name, or on standard output where there is none. With `parts` part k, counted from
    /// 1, is the file of the name followed by a dot, k and `.jelly`. Else a turn changes nothing.
    pub fn new(
        rt: R,
        alloc: Global,
        name: Option<Text>,
        parts: bool,
    ) -> Result<FileShelf<R>, AllocError>
        ensures faults { IfOk result (λ s. ⟦<FileShelf<R> as Sink>⟧.faults s ≡ 0) }
        ensures place { IfOk result (λ s. place_of s ≡ record { name = name; parts = parts; part = 1 }) }
    {
        let len = match &name {
            Some(name) => name.bytes().len(),
            None => 0,
        };
        let path = String::with_capacity(alloc, len.saturating_add(SUFFIX))?;
        Ok(FileShelf {
            rt,
            name,
            parts,
            part: 1,
            path,
            file: None,
            faults: 0,
        })
    }
}

// Writes the name of a part, or of the one file there is, into the path.
fn set_path(path: &mut String, name: &Text, part: Option<u64>) -> Result<(), Failed>
    ensures { OnOk result (string_bytes path.new ≡ file_name name.now part) }
{
    let Ok(name) = str::from_utf8(name.bytes()) else {
        return Err(Failed);
    };
    path.clear();
    let written = match part {
        Some(part) => write!(path, "{name}.{part}.jelly"),
        None => path.push_str(name),
    };
    written.map_err(|_| Failed)
}

// Writes to what is open, once.
fn write_to<F: Write>(file: &mut F, piece: &[u8]) -> Result<usize, Failed>
    ensures taken { TakesSome result piece.now }
    ensures bytes { WriteAppends (F.contents file.old) (F.contents file.new) result piece.now }
{
    match file.write(piece) {
        Ok(0) => Err(Failed),
        Ok(count) => Ok(count),
        Err(_) => Err(Failed),
    }
}

impl<R: Files + Print + Drop> FileShelf<R> {
    // Writes to where the shelf's bytes go now.
    fn write_some(&mut self, piece: &[u8]) -> Result<usize, Failed>
        ensures taken { TakesSome result piece.now }
        ensures faults { self.new.faults ≡ self.old.faults }
        ensures place { place_of self.new ≡ place_of self.old }
        ensures bytes { WriteAppends (contents_of R.File.contents self.old) (contents_of R.File.contents self.new)
            result piece.now }
    {
        let Some(name) = &self.name else {
            return write_to(&mut io::writer(&self.rt), piece);
        };
        if self.file.is_none() {
            set_path(&mut self.path, name, self.parts.then_some(self.part))?;
            let file = fs::create(&self.rt, self.path.as_str()).map_err(|_| Failed)?;
            self.file = Some(file);
        }
        match &mut self.file {
            Some(file) => write_to(file, piece),
            None => Err(Failed),
        }
    }
}

impl<R: Files + Print + Drop> Sink for FileShelf<R> {
    ghost held = { λ s. None };

    ghost faults = { λ s. s.faults };

    fn write(&mut self, piece: &[u8]) -> Result<usize, Failed>
        ensures bound { TakesSome result piece.now }
        ensures adds { Adds None None (moved result piece.now) }
        ensures cause { HasCause self.old.faults self.new.faults result }

        ensures place { place_of self.new ≡ place_of self.old }

        // The open file, where it tells what it holds, was given just the bytes that the shelf took.
        ensures bytes { WriteAppends (contents_of R.File.contents self.old) (contents_of R.File.contents self.new)
            result piece.now }
    {
        let result = self.write_some(piece);
        if result.is_err() {
            self.faults = self.faults.saturating_add(1);
        }
        result
    }
}

impl<R: Files + Print + Drop> Shelf for FileShelf<R> {
    fn turn(&mut self) -> Result<(), Failed>
        ensures turns { Turns None None result }
        ensures cause { HasCause self.old.faults self.new.faults result }

        // With parts the next one's file is made at the next write, and else nothing changes.
        ensures place { place_of self.new ≡ next_place (place_of self.old) }
        ensures open { is_open self.new ≡ (if (place_of self.old).parts then false else is_open self.old) }
    {
        if self.parts {
            self.file = None;
            self.part = self.part.saturating_add(1);
        }
        Ok(())
    }
}

ghost use Rattle.std.specs.Prelude.{◌≡◌, None};
ghost use Rattle.std.specs.Io.{ReadsAtMost};
ghost use Rattle.std.specs.Io.KnownBytes.{ReadConsumes};
ghost use Rattle.jl_io.specs.FileSources.{name_of, left_of};

use jl_base::{Failed, Source, Text};
use std::io::Read;
use std::rt::Files;
use std::{fs, io, str};

/// A file that is opened at its first read. What it has left is told where the open file tells that. An open that
/// fails is a read that failed, and so is a name that isn't UTF-8.
#[derive(Drop)]
pub struct FileSource<R: Files + Drop> {
    rt: R,
    name: Text,
    file: Option<R::File>,
    given: u64,
    faults: u64,
}

impl<R: Files + Drop> FileSource<R> {
    /// Opens nothing yet, and takes no memory.
    pub fn new(rt: R, name: Text) -> FileSource<R>
        ensures told { ⟦<FileSource<R> as Source>⟧.told result ≡ record { left = None; given = 0; faults = 0 } }
        ensures name { name_of result ≡ name }
    {
        FileSource {
            rt,
            name,
            file: None,
            given: 0,
            faults: 0,
        }
    }
}

fn open<R: Files>(rt: &R, name: &Text) -> Result<R::File, Failed> {
    let Ok(name) = str::from_utf8(name.bytes()) else {
        return Err(Failed);
    };
    fs::open(rt, name).map_err(|_| Failed)
}

// Reads from an open file, once.
fn read_some<F: Read>(file: &mut F, buf: &mut [u8]) -> Result<usize, Failed>
    ensures bound { ReadsAtMost result buf.new }
    ensures bytes { ReadConsumes (F.remaining file.old) (F.remaining file.new) result buf.new }
{
    match file.read(buf) {
        Ok(count) => Ok(count),
        Err(_) => Err(Failed),
    }
}

// Reads from the file, which is opened first where it isn't open.
fn read_from<R: Files>(
    rt: &R,
    name: &Text,
    file: &mut Option<R::File>,
    buf: &mut [u8],
) -> Result<usize, Failed>
    ensures bound { ReadsAtMost result buf.new }
    ensures bytes { ReadConsumes (left_of R.File.remaining file.old) (left_of R.File.remaining file.new) result buf.new }
{
    if file.is_none() {
        *file = Some(open(rt, name)?);
    }
    match file {
        Some(file) => read_some(file, buf),
        None => Err(Failed),
    }
}

impl<R: Files + Drop> Source for FileSource<R> {
    ghost use Rattle.jl_io.specs.FileSources.{told_of};

    ghost told = { told_of R.File.remaining };

    fn read(&mut self, buf: &mut [u8]) -> Result<usize, Failed> {
        match read_from(&self.rt, &self.name, &mut self.file, buf) {
            Ok(count) => {
                self.given = self.given.saturating_add(count as u64);
                Ok(count)
            }
            Err(failed) => {
                self.faults = self.faults.saturating_add(1);
                Err(failed)
            }
        }
    }
}

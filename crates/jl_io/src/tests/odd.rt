// An outside of odd ways: a file gives one byte and then fails to be read, takes two bytes at a time and the third time
// fails, and standard output takes one byte at a time.

use std::alloc::{Allocator, Global};
use std::cell::Cell;
use std::fmt::Display;
use std::fs::{Metadata, OpenFile, OpenOptions};
use std::io;
use std::io::{Print, Read, Seek, SeekFrom, Write};
use std::rt::Files;

#[derive(Clone, Copy, Drop)]
pub struct Odd;

#[derive(Drop)]
pub struct OddFile {
    was_read: bool,
    writes: u32,
}

#[derive(Drop)]
pub struct NoFolder;

fn unsupported() -> io::Error {
    io::Error::from(io::ErrorKind::Unsupported)
}

impl Read for OddFile {
    fn read(&mut self, buf: &mut [u8]) -> io::Result<usize> {
        if self.was_read {
            return Err(io::Error::from(io::ErrorKind::Other));
        }
        match buf.first_mut() {
            Some(first) => *first = b'a',
            None => return Ok(0),
        }
        self.was_read = true;
        Ok(1)
    }
}

impl Write for OddFile {
    fn write(&mut self, buf: &[u8]) -> io::Result<usize> {
        if self.writes == 2 {
            return Err(io::Error::from(io::ErrorKind::Other));
        }
        self.writes = self.writes.saturating_add(1);
        Ok(buf.len().min(2))
    }

    fn flush(&mut self) -> io::Result<()> {
        Ok(())
    }
}

impl Seek for OddFile {
    fn seek(&mut self, _to: SeekFrom) -> io::Result<u64> {
        Err(unsupported())
    }
}

impl OpenFile for OddFile {
    fn metadata(&self) -> io::Result<Metadata> {
        Err(unsupported())
    }

    fn set_len(&self, _size: u64) -> io::Result<()> {
        Err(unsupported())
    }

    fn sync_all(&self) -> io::Result<()> {
        Err(unsupported())
    }

    fn sync_data(&self) -> io::Result<()> {
        Err(unsupported())
    }
}

impl Read for NoFolder {
    fn read(&mut self, _buf: &mut [u8]) -> io::Result<usize> {
        Err(unsupported())
    }
}

impl Files for Odd {
    type File = OddFile;

    type Dir = NoFolder;

    fn open_file(&self, _how: &OpenOptions, _path: &str) -> io::Result<OddFile> {
        Ok(OddFile {
            was_read: false,
            writes: 0,
        })
    }

    fn open_dir(&self, _path: &str) -> io::Result<NoFolder> {
        Err(unsupported())
    }

    fn metadata(&self, _path: &str) -> io::Result<Metadata> {
        Err(unsupported())
    }

    fn symlink_metadata(&self, _path: &str) -> io::Result<Metadata> {
        Err(unsupported())
    }

    fn copy(&self, _from: &str, _to: &str) -> io::Result<u64> {
        Err(unsupported())
    }

    fn rename(&self, _from: &str, _to: &str) -> io::Result<()> {
        Err(unsupported())
    }

    fn remove_file(&self, _path: &str) -> io::Result<()> {
        Err(unsupported())
    }

    fn create_dir(&self, _path: &str) -> io::Result<()> {
        Err(unsupported())
    }

    fn remove_dir(&self, _path: &str) -> io::Result<()> {
        Err(unsupported())
    }

    fn remove_dir_all<B: Allocator>(&self, _alloc: B, _path: &str) -> io::Result<()> {
        Err(unsupported())
    }
}

impl Print for Odd {
    fn print<D: Display + Drop>(&self, _value: D) -> io::Result<()> {
        Err(unsupported())
    }

    fn println<D: Display + Drop>(&self, _value: D) -> io::Result<()> {
        Err(unsupported())
    }

    fn write_all(&self, _bytes: &[u8]) -> io::Result<()> {
        Err(unsupported())
    }

    fn write_some(&self, bytes: &[u8]) -> io::Result<usize> {
        Ok(bytes.len().min(1))
    }
}

// Standard error that counts the bytes that are printed to it.
#[derive(Drop)]
pub struct Heard<'a> {
    pub bytes: &'a Cell<u64>,
    pub alloc: Global,
}

impl Eprint for Heard<'_> {
    fn eprint<D: Display + Drop>(&self, value: D) -> io::Result<()> {
        let text = format!(in self.alloc; "{value}")?;
        self.bytes
            .set(self.bytes.get().saturating_add(text.len() as u64));
        Ok(())
    }

    fn eprintln<D: Display + Drop>(&self, value: D) -> io::Result<()> {
        self.eprint(value)
    }
}

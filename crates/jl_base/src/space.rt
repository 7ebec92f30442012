ghost use Rattle.std.specs.Prelude.{◌≡◌, ◌<◌, ◌≤◌, ◌^◌, ◌++◌, [], length, take, IfOk, OnErr, OnOk};
ghost use Rattle.jl_base.specs.Filling.{Fills, ReadsOn};
ghost use Rattle.jl_base.specs.Spans.{text_of, IsInside};

use crate::room::{copy_at, make_room, read_at, reserve_ahead};
use crate::{Source, Span};
use std::alloc::{AllocError, Global};
use std::marker::Model;

/// How many bytes are asked of a source at a time.
const STEP: usize = 262144;

/// The bytes of an input.
#[derive(Debug, Drop)]
pub struct Space {
    // The bytes, and after them room that is read into.
    bytes: Vec<u8>,
    end: usize,
}

/// Why a space wasn't filled.
#[derive(Clone, Copy, Debug, PartialEq, Eq)]
pub enum FillFault {
    /// The source failed.
    ReadFault,
    /// The source gave more bytes than the limit.
    TooLong,
    NoMemory,
}

impl Model for Space {
    ghost use Rattle.std.specs.Prelude.{List, ℕ, ◌≤◌, take, vec_len};

    ghost Value = { List ℕ };

    ghost view = { λ s. take s.end s.bytes.items };

    ghost invariant = { λ s. s.end ≤ vec_len s.bytes };
}

impl Space {
    /// No bytes yet. Takes no memory.
    pub fn new(alloc: Global) -> Space
        ensures { result ≡ [] }
    {
        Space {
            bytes: Vec::new(alloc),
            end: 0,
        }
    }

    /// A space of these bytes.
    pub fn from_bytes(alloc: Global, bytes: &[u8]) -> Result<Space, AllocError>
        ensures { IfOk result (λ space. space ≡ bytes.now) }
    {
        let end = bytes.len();
        let bytes = Vec::from_slice(alloc, bytes)?;
        Ok(Space { bytes, end })
    }

    #[inline]
    pub fn bytes(&self) -> &[u8]
        ensures all { result.now ≡ self.now }
        ensures fits { length self.now < 2 ^ 64 }
    {
        &self.bytes[..self.end]
    }

    /// How many bytes there are.
    #[inline]
    pub fn len(&self) -> usize
        ensures { result ≡ length self.now }
    {
        self.end
    }

    /// The bytes of a span.
    #[inline]
    pub fn text(&self, span: Span) -> &[u8]
        requires { IsInside self.now span }
        ensures all { result.now ≡ text_of self.now span }
        ensures len { length result.now ≡ span.len }
    {
        let start = span.at as usize;
        &self.bytes[start..start + span.len as usize]
    }

    /// Forgets the bytes after the first ones. Their room stays, and is read into again.
    pub fn cut(&mut self, len: usize)
        requires { len ≤ length self.old }
        ensures { self.new ≡ take len self.old }
    {
        self.end = len;
    }

    /// Puts bytes after those that are here. Takes memory where there is no room for them.
    pub fn append(&mut self, text: &[u8]) -> Result<(), AllocError>
        ensures ok { OnOk result (self.new ≡ self.old ++ text.now) }
        ensures err { OnErr result (self.new ≡ self.old) }
    {
        make_room(&mut self.bytes, self.end, text.len())?;
        self.end = copy_at(&mut self.bytes, self.end, text);
        Ok(())
    }

    /// Reads some bytes of a source, at most so many, and puts them after those that are here; answers how many. No
    /// byte is the source's end. Takes memory where there is no room for so many.
    pub fn read<S: Source>(&mut self, source: &mut S, most: usize) -> Result<usize, FillFault>
        requires { 0 < most }
        ensures { ReadsOn most (S.told source.old) (S.told source.new) self.old self.new result }
    {
        let Ok(()) = make_room(&mut self.bytes, self.end, most) else {
            return Err(FillFault::NoMemory);
        };
        match read_at(&mut self.bytes, self.end, most, source) {
            Ok(got) => {
                self.end += got;
                Ok(got)
            }
            Err(_) => Err(FillFault::ReadFault),
        }
    }

    /// Reads the source to its end, and puts its bytes, of which there may be `limit`, after those that are here.
    /// After a refusal a prefix of what was read stands there. Takes memory for the bytes as they come.
    pub fn fill<S: Source>(&mut self, source: &mut S, limit: u64) -> Result<(), FillFault>
        ensures { Fills limit (S.told source.old) (S.told source.new) self.old self.new result }
    {
        let mut count: u64 = 0;
        'pieces: loop {
            self.reserve(limit - count);
            let got = self.read(source, STEP)?;
            if got == 0 {
                return Ok(());
            }
            if limit - count < got as u64 {
                return Err(FillFault::TooLong);
            }
            count += got as u64;
        }
    }

    // Room ahead for the next pieces, of which so many bytes may still come.
    fn reserve(&mut self, most: u64)
        ensures { self.new ≡ self.old }
    {
        reserve_ahead(&mut self.bytes, STEP, most);
    }
}

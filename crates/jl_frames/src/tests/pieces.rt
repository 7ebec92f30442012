//! A source that tells no bytes, gives some at a time and fails at one of its calls.
ghost use Rattle.std.specs.Prelude.{None};
ghost use Rattle.jl_base.specs.Sources.{Told};

use jl_base::{Failed, Source};

#[derive(Drop)]
pub struct Pieces<'a> {
    pub rest: &'a [u8],
    pub piece: usize,
    pub fails: u64,
    pub calls: u64,
    pub given: u64,
    pub faults: u64,
}

impl<'a> Source for Pieces<'a> {
    ghost told = { λ p. record { left = None; given = p.given; faults = p.faults } };

    fn read(&mut self, buf: &mut [u8]) -> Result<usize, Failed> {
        self.calls = self.calls.saturating_add(1);
        if self.calls == self.fails {
            self.faults = self.faults.saturating_add(1);
            return Err(Failed);
        }
        let count = self.piece.min(buf.len()).min(self.rest.len());
        let (front, rest) = self.rest.split_at(count);
        buf[..count].copy_from_slice(front);
        self.rest = rest;
        self.given = self.given.saturating_add(count as u64);
        Ok(count)
    }
}

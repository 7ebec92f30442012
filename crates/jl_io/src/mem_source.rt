ghost use Rattle.std.specs.Prelude.{◌≡◌, ◌<◌, ◌≤◌, ◌-◌, min, take, drop, length, vec_len, if◌then◌else◌, is_err, IfOk};
ghost use Rattle.std.specs.Io.{ReadsAtMost};
ghost use Rattle.std.specs.Io.KnownBytes.{IsAtEnd};
ghost use Rattle.jl_base.specs.Causes.{HasCause};
ghost use Rattle.jl_io.specs.Schedules.{is_to_fail, after_call};
ghost use Rattle.jl_base.specs.Sources.{Reads, moved, counted};

use crate::calls::Calls;
use jl_base::{Failed, Source};
use std::alloc::{AllocError, Global};

/// A source of known bytes, some of whose reads fail.
#[derive(Debug, Drop)]
pub struct MemSource {
    bytes: Vec<u8>,
    at: usize,
    piece: usize,
    calls: Calls,
    given: u64,
    faults: u64,
    ghost within: { at ≤ vec_len bytes },
    ghost gives_some: { 0 < piece },
}

impl MemSource {
    ghost use Rattle.jl_io.specs.MemSources.{told_of, schedule_of, piece_of};

    /// A source of these bytes. A read gives at most `piece` of them, and the calls whose numbers, counted from 1,
    /// stand in `fails` fail.
    pub fn new(
        alloc: Global,
        bytes: &[u8],
        piece: usize,
        fails: &[u64],
    ) -> Result<MemSource, AllocError>
        requires { 0 < piece }
        ensures told { IfOk result (λ s. told_of s ≡ record { left = Some bytes.now; given = 0; faults = 0 }) }
        ensures calls { IfOk result (λ s. schedule_of s ≡ record { fails = fails.now; made = 0 }) }
        ensures piece { IfOk result (λ s. piece_of s ≡ piece) }
    {
        let bytes = Vec::from_slice(alloc, bytes)?;
        let calls = Calls::new(alloc, fails)?;
        Ok(MemSource {
            bytes,
            at: 0,
            piece,
            calls,
            given: 0,
            faults: 0,
        })
    }
}

// Copies the next bytes, at most a piece of them, to the front of the buffer, and answers how many.
fn copy_piece(bytes: &[u8], at: usize, piece: usize, buf: &mut [u8]) -> usize
    requires { at ≤ length bytes.now }
    ensures count { result ≡ min (min piece (length buf.new)) (length bytes.now - at) }
    ensures copied { take result buf.new ≡ take result (drop at bytes.now) }
{
    let count = piece.min(buf.len()).min(bytes.len() - at);
    buf[..count].copy_from_slice(&bytes[at..at + count]);
    count
}

impl Source for MemSource {
    ghost use Rattle.jl_io.specs.MemSources.{left_of, told_of, schedule_of, piece_of};

    ghost told = { told_of };

    fn read(&mut self, buf: &mut [u8]) -> Result<usize, Failed>
        ensures bound { ReadsAtMost result buf.new }
        ensures read { Reads (told_of self.old) (told_of self.new) (moved result buf.new) }
        ensures end { result ≡ Ok 0 → 0 < length buf.new → IsAtEnd (told_of self.new).left }
        ensures cause { HasCause (told_of self.old).faults (told_of self.new).faults result }

        // Exactly the calls whose numbers are listed fail, and nothing else is a fault.
        ensures fails { is_err result ≡ is_to_fail (schedule_of self.old) }
        ensures calls { schedule_of self.new ≡ after_call (schedule_of self.old) }
        ensures faults { (told_of self.new).faults
            ≡ (if is_err result then counted (told_of self.old).faults 1 else (told_of self.old).faults) }

        // A read gives as many bytes as it can.
        ensures piece { piece_of self.new ≡ piece_of self.old }
        ensures count { IfOk result (λ n.
            n ≡ min (min (piece_of self.old) (length buf.new)) (length (left_of self.old))) }
    {
        if self.calls.is_next_to_fail() {
            self.faults = self.faults.saturating_add(1);
            return Err(Failed);
        }
        let count = copy_piece(&self.bytes, self.at, self.piece, buf);
        self.at += count;
        self.given = self.given.saturating_add(count as u64);
        Ok(count)
    }
}

ghost use Rattle.std.specs.Prelude.{◌≡◌, ◌==◌, ◌||◌, ℕ, ◌+◌, ◌-◌, ◌<◌, ◌≤◌, min, [], true, length, take, ◌∷◌, slice_get, slice_index, vec_len, vec_capacity, if◌then◌else◌, is_err, IfOk, OnOk};
ghost use Rattle.jl_base.specs.Causes.{HasCause};
ghost use Rattle.jl_io.specs.Cuts.{parts_from, last_end, are_ordered};
ghost use Rattle.jl_io.specs.Schedules.{is_to_fail, after_call};
ghost use Rattle.jl_base.specs.Sinks.{Adds, TakesSome, Turns};
ghost use Rattle.jl_base.specs.Sources.{moved, counted};

use crate::calls::Calls;
use jl_base::{Failed, Shelf, Sink};
use std::alloc::{AllocError, Global};

/// A shelf that keeps what it is given, and some of whose calls fail. Writes and turns are counted together. It takes
/// its memory when it is made, and its writes and turns take none.
#[derive(Debug, Drop)]
pub struct MemShelf {
    bytes: Vec<u8>,
    ends: Vec<usize>,
    start: usize,
    piece: usize,
    room: usize,
    turns: usize,
    calls: Calls,
    faults: u64,
    ghost begun: { start ≡ last_end 0 ends.items },
    ghost ordered: { are_ordered 0 ends.items ≡ true },
    ghost within: { start ≤ vec_len bytes },
    ghost takes_some: { 0 < piece },
    ghost in_room: { vec_len bytes ≤ room },
    ghost has_room: { room ≤ vec_capacity bytes },
    ghost in_turns: { vec_len ends ≤ turns },
    ghost has_turns: { turns ≤ vec_capacity ends },
}

impl MemShelf {
    ghost use Rattle.jl_io.specs.MemShelves.{held_of, size_of, faults_of, schedule_of, limits_of};

    /// An empty shelf. A write takes at most `piece` bytes. A call fails where its number, counted from 1, stands in
    /// `fails`, and so does a write after `room` bytes and a turn after `turns` turns.
    pub fn new(
        alloc: Global,
        piece: usize,
        room: usize,
        turns: usize,
        fails: &[u64],
    ) -> Result<MemShelf, AllocError>
        requires { 0 < piece }
        ensures held { IfOk result (λ s. held_of s ≡ record { finished = []; under_way = [] }) }
        ensures size { IfOk result (λ s. size_of s ≡ 0) }
        ensures faults { IfOk result (λ s. faults_of s ≡ 0) }
        ensures calls { IfOk result (λ s. schedule_of s ≡ record { fails = fails.now; made = 0 }) }
        ensures limits { IfOk result (λ s. limits_of s ≡ record { piece = piece; room = room; turns = turns }) }
    {
        let bytes = Vec::with_capacity(alloc, room)?;
        let ends = Vec::with_capacity(alloc, turns)?;
        let calls = Calls::new(alloc, fails)?;
        Ok(MemShelf {
            bytes,
            ends,
            start: 0,
            piece,
            room,
            turns,
            calls,
            faults: 0,
        })
    }

    /// How many parts are finished.
    pub fn finished(&self) -> u64
        ensures { result ≡ length (held_of self.now).finished }
    {
        self.ends.len() as u64
    }

    /// The part with i finished ones before it.
    pub fn part(&self, i: u64) -> &[u8]
        requires { i < length (held_of self.now).finished }
        ensures { slice_get (held_of self.now).finished i ≡ Some result.now }
    {
        part_of(&self.bytes, &self.ends, i as usize)
    }

    /// The part under way.
    pub fn under_way(&self) -> &[u8]
        ensures { result.now ≡ (held_of self.now).under_way }
    {
        &self.bytes[self.start..]
    }
}

// Where the part begins that has i others before it.
fn start_of(ends: &[usize], i: usize) -> usize
    requires { i < length ends.now }
    ensures { result ≡ slice_index (0 ∷ ends.now) i }
{
    if i == 0 { 0 } else { ends[i - 1] }
}

// The part of the bytes that has i others before it.
fn part_of<'a>(bytes: &'a [u8], ends: &[usize], i: usize) -> &'a [u8]
    requires ordered { are_ordered 0 ends.now ≡ true }
    requires within { last_end 0 ends.now ≤ length bytes.now }
    requires one { i < length ends.now }
    ensures { slice_get (parts_from 0 ends.now bytes.now) i ≡ Some result.now }
{
    let start = start_of(ends, i);
    let end = ends[i];
    &bytes[start..end]
}

impl Sink for MemShelf {
    ghost use Rattle.jl_io.specs.MemShelves.{held_of, size_of, faults_of, schedule_of, limits_of};
    ghost use Rattle.std.specs.Prelude.{Some};

    ghost held = { λ s. Some (held_of s) };

    ghost faults = { faults_of };

    fn write(&mut self, piece: &[u8]) -> Result<usize, Failed>
        ensures bound { TakesSome result piece.now }
        ensures adds { Adds (Some (held_of self.old)) (Some (held_of self.new)) (moved result piece.now) }
        ensures cause { HasCause (faults_of self.old) (faults_of self.new) result }

        // Exactly a call whose number is listed fails, and a write after the room, and nothing else is a fault.
        ensures fails { is_err result
            ≡ (is_to_fail (schedule_of self.old) || (size_of self.old == (limits_of self.old).room)) }
        ensures calls { schedule_of self.new ≡ after_call (schedule_of self.old) }
        ensures faults { faults_of self.new
            ≡ (if is_err result then counted (faults_of self.old) 1 else faults_of self.old) }

        // A write takes as many bytes as it can.
        ensures limits { limits_of self.new ≡ limits_of self.old }
        ensures size { size_of self.new ≡ size_of self.old + length (moved result piece.now) }
        ensures count { IfOk result (λ n. n ≡ min (min (limits_of self.old).piece (length piece.now))
            ((limits_of self.old).room - size_of self.old)) }
    {
        let fails = self.calls.is_next_to_fail();
        let left = self.room - self.bytes.len();
        if fails || left == 0 {
            self.faults = self.faults.saturating_add(1);
            return Err(Failed);
        }
        let count = self.piece.min(piece.len()).min(left);
        match self.bytes.extend_from_slice(&piece[..count]) {
            Ok(()) => Ok(count),
            Err(_) => unreachable!(),
        }
    }
}

impl Shelf for MemShelf {
    ghost use Rattle.jl_io.specs.MemShelves.{held_of, size_of, faults_of, schedule_of, limits_of};

    fn turn(&mut self) -> Result<(), Failed>
        ensures turns { Turns (Some (held_of self.old)) (Some (held_of self.new)) result }
        ensures cause { HasCause (faults_of self.old) (faults_of self.new) result }

        // Exactly a call whose number is listed fails, and a turn after the turns, and nothing else is a fault.
        ensures fails { is_err result ≡ (is_to_fail (schedule_of self.old)
            || (length (held_of self.old).finished == (limits_of self.old).turns)) }
        ensures calls { schedule_of self.new ≡ after_call (schedule_of self.old) }
        ensures faults { faults_of self.new
            ≡ (if is_err result then counted (faults_of self.old) 1 else faults_of self.old) }
        ensures limits { limits_of self.new ≡ limits_of self.old }
        ensures size { size_of self.new ≡ size_of self.old }
    {
        let fails = self.calls.is_next_to_fail();
        if fails || self.ends.len() == self.turns {
            self.faults = self.faults.saturating_add(1);
            return Err(Failed);
        }
        let end = self.bytes.len();
        self.ends.push_reserved(end);
        self.start = end;
        Ok(())
    }
}

//! A line that needs no memory.
ghost use Rattle.std.specs.Prelude.{◌≡◌, ◌+◌, ◌≤◌, [], ◌++◌, length};
ghost use Rattle.std.specs.Fmt.{decimal};

use std::marker::Model;

pub(crate) const ROOM: usize = 128;

/// At most 128 bytes, in a buffer of its own.
#[derive(Debug, Drop)]
pub struct Short {
    buffer: [u8; 128],
    used: usize,
}

impl Model for Short {
    ghost use Rattle.std.specs.Prelude.{ℕ, ◌≤◌, List, take};

    ghost Value = { List ℕ };

    ghost view = { λ s. take s.used s.buffer };

    ghost invariant = { λ s. s.used ≤ 128 };
}

impl Short {
    pub(crate) fn new() -> Short
        ensures { result ≡ [] }
    {
        Short {
            buffer: [0; ROOM],
            used: 0,
        }
    }

    pub fn bytes(&self) -> &[u8]
        ensures { result.now ≡ self.now }
    {
        &self.buffer[..self.used]
    }

    pub(crate) fn push(&mut self, text: &[u8])
        requires { length self.old + length text.now ≤ ROOM }
        ensures { self.new ≡ self.old ++ text.now }
    {
        let end = self.used + text.len();
        self.buffer[self.used..end].copy_from_slice(text);
        self.used = end;
    }

    pub(crate) fn push_number(&mut self, n: u64)
        requires { length self.old + 20 ≤ ROOM }
        ensures text { self.new ≡ self.old ++ decimal n }
        ensures room { length self.new ≤ length self.old + 20 }
    {
        let mut digits = itoa::Buffer::new();
        self.push(digits.format(n).as_bytes());
    }
}

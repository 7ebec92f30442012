ghost use Rattle.std.specs.Prelude.{◌≡◌, None};

use jl_base::{Failed, Sink};
use std::str;

/// Standard error. It tells no bytes. A piece that isn't UTF-8 fails.
#[derive(Drop)]
pub struct ErrSink<R: Eprint + Drop> {
    rt: R,
    faults: u64,
}

impl<R: Eprint + Drop> ErrSink<R> {
    pub fn new(rt: R) -> ErrSink<R>
        ensures { ⟦<ErrSink<R> as Sink>⟧.faults result ≡ 0 }
    {
        ErrSink { rt, faults: 0 }
    }
}

// Prints a piece that is text.
fn print_to<R: Eprint>(rt: &R, piece: &[u8]) -> Result<(), Failed> {
    let Ok(text) = str::from_utf8(piece) else {
        return Err(Failed);
    };
    rt.eprint(text).map_err(|_| Failed)
}

impl<R: Eprint + Drop> Sink for ErrSink<R> {
    ghost held = { λ s. None };

    ghost faults = { λ s. s.faults };

    fn write(&mut self, piece: &[u8]) -> Result<usize, Failed> {
        match print_to(&self.rt, piece) {
            Ok(()) => Ok(piece.len()),
            Err(failed) => {
                self.faults = self.faults.saturating_add(1);
                Err(failed)
            }
        }
    }
}

//! Options with the stream's name in another space.
ghost use Rattle.std.specs.Prelude.{◌≡◌, ◌++◌, IfOk, OnErr, OnOk};
ghost use Rattle.jl_base.specs.Spans.{IsInside, text_of};
ghost use Rattle.jl_rows.specs.Carries.{CarriesOptions, Grows};

use crate::options::Options;
use jl_base::{Space, Span};
use std::alloc::AllocError;

impl Options {
    /// The same options, with the stream's name after the bytes of another space. Takes room for the name there; on a
    /// refusal that space is unchanged.
    pub fn carry(&self, from: &Space, into: &mut Space) -> Result<Options, AllocError>
        requires { IsInside from.now self.now.stream_name }
        ensures carries { IfOk result (CarriesOptions from.now into.new self.now) }
        ensures after { OnOk result (into.new ≡ into.old ++ text_of from.now self.now.stream_name) }
        ensures refused { OnErr result (into.new ≡ into.old) }
        ensures grows { Grows into.old into.new }
    {
        let at = into.bytes().len() as u64;
        into.append(from.text(self.stream_name))?;
        let stream_name = Span {
            at,
            len: self.stream_name.len,
        };
        Ok(Options {
            stream_name,
            ..*self
        })
    }
}

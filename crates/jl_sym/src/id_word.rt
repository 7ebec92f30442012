//! Relative ids in one word each, as they are kept while rows are read. What is done with them stands in `words.rt`.
ghost use Rattle.std.specs.Prelude.{◌<◌, ◌^◌};

/// The number itself, or 2^32 and so many after the incoming last one. A loop over rows is quicker with ids in one register.
#[derive(Clone, Copy, Debug)]
pub(crate) struct IdWord {
    pub word: u64,
    ghost within: { word < 2 ^ 33 },
}

/// The last ids.
#[derive(Clone, Copy, Debug)]
pub(crate) struct RefWords {
    pub prefix: IdWord,
    pub name: IdWord,
}

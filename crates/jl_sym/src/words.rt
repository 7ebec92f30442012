//! Steps of relative ids that are kept in words.
ghost use Rattle.std.specs.Prelude.{◌≡◌};
ghost use Rattle.jl_rows.specs.Seen as rows;
ghost use Rattle.jl_sym_laws.specs.RelativeIds as ids;
ghost use Rattle.jl_sym.specs.Seen.{id_seen, refs_seen, word_seen, words_seen, IsSmallId};

use crate::id_word::{IdWord, RefWords};
use crate::relative_id::{Refs, RelativeId};
use jl_rows::RawIri;

const AFTER: u64 = 1 << 32;

impl IdWord {
    /// The incoming last one.
    pub fn incoming() -> IdWord
        ensures { word_seen result ≡ ids.After 0 }
    {
        IdWord { word: AFTER }
    }

    #[inline(always)]
    fn given(number: u32) -> IdWord
        ensures { word_seen result ≡ ids.Given number }
    {
        IdWord {
            word: u64::from(number),
        }
    }

    /// The next id.
    #[inline(always)]
    fn next(self) -> IdWord
        requires { IsSmallId (word_seen self) }
        ensures { word_seen result ≡ ids.following (word_seen self) (ids.After 1) }
    {
        IdWord {
            word: self.word + 1,
        }
    }

    /// The id by its two cases.
    #[inline(always)]
    pub fn id(self) -> RelativeId
        ensures { id_seen result ≡ word_seen self }
    {
        if self.word < AFTER {
            RelativeId::Given(self.word as u32)
        } else {
            RelativeId::After((self.word - AFTER) as u32)
        }
    }
}

impl RefWords {
    /// The incoming last ids.
    pub fn incoming() -> RefWords
        ensures { words_seen result ≡ ids.incoming }
    {
        RefWords {
            prefix: IdWord::incoming(),
            name: IdWord::incoming(),
        }
    }

    /// The last ids once an IRI was read.
    #[inline(always)]
    pub fn after(self, iri: RawIri) -> RefWords
        requires { IsSmallId (word_seen self.name) }
        ensures { words_seen result ≡ ids.refs_following (words_seen self) (ids.refs_written (rows.ids_seen iri)) }
    {
        RefWords {
            prefix: if iri.prefix == 0 {
                self.prefix
            } else {
                IdWord::given(iri.prefix)
            },
            name: if iri.name == 0 {
                self.name.next()
            } else {
                IdWord::given(iri.name)
            },
        }
    }

    /// The ids by their cases.
    pub fn refs(self) -> Refs
        ensures { refs_seen result ≡ words_seen self }
    {
        Refs {
            prefix: self.prefix.id(),
            name: self.name.id(),
        }
    }
}

//! Where the parts of a line lie on a page.
ghost use Rattle.std.specs.Prelude.{IsTrue};
ghost use Rattle.jl_rows.specs.Seen.{row_seen};
ghost use Rattle.jl_lines.specs.Kept.{RepeatsSubject, RepeatsPredicate, RepeatsObject};

use jl_rows::Row;

/// Where a line begins, and where its subject, predicate and object end, each with a space, and the line itself. A part
/// that ends where it begins isn't kept.
#[derive(Clone, Copy, Debug)]
pub struct Line {
    pub start: usize,
    pub subject: usize,
    pub predicate: usize,
    pub object: usize,
    pub end: usize,
}

/// Which terms of a statement are the last ones there again.
#[derive(Clone, Copy, Debug)]
pub struct Repeats {
    pub subject: bool,
    pub predicate: bool,
    pub object: bool,
}

impl Repeats {
    /// What a row repeats, if it is a statement.
    #[inline]
    pub fn of(bytes: &[u8], row: &Row) -> Repeats
        ensures subject { IsTrue result.subject → RepeatsSubject (row_seen bytes.now row.now) }
        ensures predicate { IsTrue result.predicate → RepeatsPredicate (row_seen bytes.now row.now) }
        ensures object { IsTrue result.object → RepeatsObject (row_seen bytes.now row.now) }
    {
        match row {
            Row::Triple(t) => Repeats {
                subject: t.s.is_none(),
                predicate: t.p.is_none(),
                object: t.o.is_none(),
            },
            Row::Quad(t) => Repeats {
                subject: t.s.is_none(),
                predicate: t.p.is_none(),
                object: t.o.is_none(),
            },
            _ => Repeats {
                subject: false,
                predicate: false,
                object: false,
            },
        }
    }
}

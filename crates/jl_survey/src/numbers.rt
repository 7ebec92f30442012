//! The numbers of a survey, one row more at a time.
ghost use Rattle.std.specs.Prelude.{ℕ, ◌≡◌, ◌-◌, ◌^◌, List};
ghost use Rattle.jl_rows.specs.Seen.{row_seen};
ghost use Rattle.jl_survey.specs.Counting.{AreFew, BeginsAll, Grew, empty, survey_seen, with_row};

use jl_rows::{Options, Row, Table};

/// How many of each there are in the windows of a file so far.
#[derive(Clone, Copy, Debug)]
pub struct Survey {
    /// The bytes of all frames with their lengths: the length of a file without a fault.
    pub bytes: u64,
    pub frames: u64,
    /// The entries of metadata of all frames.
    pub metadata: u64,
    /// The options of the file's first row, once it was met.
    pub options: Option<Options>,
    pub option_rows: u64,
    pub triples: u64,
    pub quads: u64,
    pub graph_starts: u64,
    pub graph_ends: u64,
    pub namespaces: u64,
    pub names: u64,
    pub prefixes: u64,
    pub datatypes: u64,
}

impl Survey {
    /// The survey of no bytes. Takes no memory.
    pub fn new() -> Survey
        ensures begins { BeginsAll result }
        ensures empty { result ≡ empty }
    {
        Survey {
            bytes: 0,
            frames: 0,
            metadata: 0,
            options: None,
            option_rows: 0,
            triples: 0,
            quads: 0,
            graph_starts: 0,
            graph_ends: 0,
            namespaces: 0,
            names: 0,
            prefixes: 0,
            datatypes: 0,
        }
    }

    // One row more.
    #[inline]
    pub(crate) fn add(&mut self, row: &Row)
        requires { AreFew (2 ^ 64 - 2) self.old }
        ensures more { (kept bytes : List ℕ) → survey_seen kept self.new ≡ with_row (row_seen bytes row.now) (survey_seen kept self.old) }
        ensures options { self.new.options ≡ self.old.options }
        ensures few { Grew 1 self.old self.new }
        ensures bytes { self.new.bytes ≡ self.old.bytes }
    {
        match row {
            Row::Options(_) => self.option_rows += 1,
            Row::Triple(_) => self.triples += 1,
            Row::Quad(_) => self.quads += 1,
            Row::GraphStart(_) => self.graph_starts += 1,
            Row::GraphEnd => self.graph_ends += 1,
            Row::Namespace { .. } => self.namespaces += 1,
            Row::Entry { table, .. } => match table {
                Table::Name => self.names += 1,
                Table::Prefix => self.prefixes += 1,
                Table::Datatype => self.datatypes += 1,
            },
        }
    }
}

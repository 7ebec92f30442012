ghost use Rattle.std.specs.Prelude.{◌≡◌};
ghost use Rattle.jl_base.specs.Kinds.{name_of};

/// What is wrong with a file: the first fault that the checks of the format meet. Each kind has a number, which
/// never changes, and a name, which the fault's line on standard error ends with.
#[derive(Clone, Copy, Debug, PartialEq, Eq)]
pub enum Kind {
    /// The bytes end inside a length, a tag or a value.
    Truncated = 1,
    /// A varint of more than ten bytes, or of a value of 2^64 and above.
    BadVarint = 2,
    /// A field number of 0 or above 2^29 - 1, or a wire type that is a group's or none.
    BadTag = 3,
    /// A known field with another wire type than its own.
    WrongWire = 4,
    /// A field, or another one of its group, for the second time in one message.
    Twice = 5,
    /// A string that isn't UTF-8.
    BadUtf8 = 6,
    /// A triple term inside 32 others.
    TooDeep = 7,
    /// A row without any of its kinds.
    EmptyRow = 8,
    /// The file's first row is no options row.
    NoOptions = 9,
    /// A physical type other than TRIPLES, QUADS and GRAPHS, or an unknown version.
    BadOptions = 10,
    /// A lookup table of more than 65,536 entries.
    TableTooLarge = 11,
    /// A later options row that says something else than the first.
    OptionsDiffer = 12,
    /// A row that the file's physical type doesn't have.
    WrongRow = 13,
    /// An entry whose id is above the size of its table.
    BadEntry = 14,
    /// A reference to a slot of a lookup table that isn't filled.
    NoEntry = 15,
    /// A term that is unset, where there is nothing to repeat or a term must stand.
    NoTerm = 16,
    /// A triple or a graph end where no graph is open.
    NoGraph = 17,
    /// A graph start while a graph is open.
    GraphOpen = 18,
    /// A language tag that N-Quads doesn't have.
    BadLangtag = 19,
    /// A frame of more than 2^27 bytes.
    FrameTooLong = 20,
    /// Under the strict profile: a name table of fewer than 8 entries.
    SmallNames = 21,
    /// Under the strict profile: a logical type that doesn't go with the physical type.
    BadLogical = 22,
    /// Under the strict profile: a triple term in a file that declares none.
    NoStar = 23,
    /// Under the strict profile: a term at a position where RDF has none of its sort, in a file that declares no such.
    NotPlain = 24,
    /// Under the strict profile: a namespace's declaration in a file of the first version.
    EarlyNamespace = 25,
}

/// The kind's name, as it stands at the end of a fault's line.
pub fn kind_name(kind: Kind) -> &'static str
    ensures { result.now ≡ name_of kind }
{
    match kind {
        Kind::Truncated => "Truncated",
        Kind::BadVarint => "BadVarint",
        Kind::BadTag => "BadTag",
        Kind::WrongWire => "WrongWire",
        Kind::Twice => "Twice",
        Kind::BadUtf8 => "BadUtf8",
        Kind::TooDeep => "TooDeep",
        Kind::EmptyRow => "EmptyRow",
        Kind::NoOptions => "NoOptions",
        Kind::BadOptions => "BadOptions",
        Kind::TableTooLarge => "TableTooLarge",
        Kind::OptionsDiffer => "OptionsDiffer",
        Kind::WrongRow => "WrongRow",
        Kind::BadEntry => "BadEntry",
        Kind::NoEntry => "NoEntry",
        Kind::NoTerm => "NoTerm",
        Kind::NoGraph => "NoGraph",
        Kind::GraphOpen => "GraphOpen",
        Kind::BadLangtag => "BadLangtag",
        Kind::FrameTooLong => "FrameTooLong",
        Kind::SmallNames => "SmallNames",
        Kind::BadLogical => "BadLogical",
        Kind::NoStar => "NoStar",
        Kind::NotPlain => "NotPlain",
        Kind::EarlyNamespace => "EarlyNamespace",
    }
}

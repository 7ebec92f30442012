/// What the program does with its files.
#[derive(Clone, Copy, Debug, PartialEq, Eq)]
pub enum Command {
    /// Writes the N-Quads lines of a file.
    Nquads,
    /// Decodes a file, and writes how many frames, statements and namespace declarations it has.
    Validate,
    /// Writes how many rows of each sort a file has. They are read and not decoded.
    Inspect,
}

/// What the words of a command line ask for.
#[derive(Clone, Copy, Debug, PartialEq, Eq)]
pub struct Job {
    pub command: Command,
    /// How many workers decode.
    pub workers: u32,
    /// How many frames a worker takes at a time.
    pub run: u32,
    /// How many items are made, or stand in a part.
    pub items: u64,
    /// How many items a made frame has.
    pub per: u32,
    /// Which of the made files is made.
    pub number: u64,
    /// Whether what a file declares is checked too.
    pub strict: bool,
    /// The place of the word that names the output; none is standard output.
    pub out: Option<usize>,
    /// The place of the first file's word. All words from there on are files.
    pub first: usize,
}

/// What a line is.
#[derive(Clone, Copy, Debug, PartialEq, Eq)]
pub enum Shape {
    /// Nothing but spaces, tabs and perhaps a comment.
    Blank,
    /// A statement without a graph.
    Triple,
    /// A statement with a graph.
    Quad,
    /// A line that isn't in the grammar.
    Bad,
}

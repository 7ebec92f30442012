//! The devices of jellyp: sources and shelves in memory, some of whose calls fail, and those over real files and the
//! standard streams.
//!
//! A device in memory tells its bytes, and exactly which of its calls fail. One over the outside tells them where the
//! open file tells its own: what is read is then what the file gave, and what is written is what the file took. It
//! stands on `jl_base`, for the traits.
#![tactic(auto)]

mod calls;
mod err_sink;
mod file_shelf;
mod file_source;
mod mem_shelf;
mod mem_source;

pub use err_sink::ErrSink;
pub use file_shelf::FileShelf;
pub use file_source::FileSource;
pub use mem_shelf::MemShelf;
pub use mem_source::MemSource;

#[cfg(test)]
mod tests;

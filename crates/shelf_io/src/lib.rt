//! The outside of the program: shelves that hold files, sinks that take what is printed, and the words that are given.
#![tactic(auto)]

mod beside;
mod calls;
mod disk_shelf;
mod memory_files;
mod memory_shelf;
mod memory_sink;
mod out_sink;
mod perfect_shelf;
mod replacing;
mod shelf;
mod sink;
mod standard_output;
mod system;
mod system_calls;
mod transfer;
mod words;

pub use disk_shelf::DiskShelf;
pub use memory_shelf::MemoryShelf;
pub use memory_sink::MemorySink;
pub use out_sink::OutSink;
pub use perfect_shelf::PerfectShelf;
pub use shelf::{Failed, Found, ReadStop, Shelf};
pub use sink::Sink;
pub use standard_output::StandardOutput;
pub use system::System;
pub use system_calls::SystemCalls;
pub use words::{words_behind, words_of};

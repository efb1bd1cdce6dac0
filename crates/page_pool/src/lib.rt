//! Pages of 256 words, cut from one block of raw memory.
#![tactic(auto)]

mod block;
mod free;
mod pool;

pub use pool::PagePool;

//! All code points by stretches: gone over, and counted.
#![tactic(auto)]

mod counting;
mod laws;
mod stretch_iter;

pub use counting::count_passing;
pub use laws::stretches_cover;
pub use stretch_iter::{StretchIter, stretches_by};

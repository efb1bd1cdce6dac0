//! What is left to be done of a run that is not refused.

use crate::output::Output;
use ucd_points::Text;

/// What is left to be done: the files to be written, the summary to be printed, and how the run then ends.
#[derive(Drop)]
pub struct Plan {
    /// The files, in the order in which they are written.
    pub outputs: Vec<Output>,
    /// The line that is printed once they are.
    pub summary: Text,
    /// Whether something was refused or is broken.
    pub done: bool,
}

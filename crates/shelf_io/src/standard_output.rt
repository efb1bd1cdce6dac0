//! Standard output as a writer. This file is trusted: no clause can say what reaches a terminal.

use std::io;
use std::io::Write;

/// The standard output of a runtime, by the system's own call. Nothing is known of what was written.
#[derive(Drop)]
pub struct StandardOutput<R: Print> {
    runtime: R,
}

impl<R: Print> StandardOutput<R> {
    /// The output of this runtime.
    pub fn new(runtime: R) -> StandardOutput<R> {
        StandardOutput { runtime }
    }
}

impl<R: Print> Write for StandardOutput<R> {
    fn write(&mut self, buf: &[u8]) -> io::Result<usize> {
        self.runtime.write_some(buf)
    }

    fn flush(&mut self) -> io::Result<()> {
        Ok(())
    }
}

//! What is now and what is next.

/// One of the two versions of a list.
#[derive(Clone, Copy)]
pub enum NowOrNext {
    /// What was committed last.
    Now,
    /// What was edited since then.
    Next,
}

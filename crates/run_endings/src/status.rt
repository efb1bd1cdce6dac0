//! How a run ended.

ghost use Rattle.std.specs.Prelude.{◌≡◌};

/// How a run ended.
#[derive(Clone, Copy, Debug, PartialEq, Eq)]
pub enum Status {
    /// All files were written; nothing was refused and nothing is broken.
    Clean,
    /// All files were written; something that was asked for was refused, or something is broken.
    Done,
    /// The words have no listed form.
    BadWords,
    /// What was read is refused.
    LoadRefused,
    /// A file could not be read.
    ReadFault,
    /// A file could not be written, or the summary could not be printed.
    WriteFault,
    /// Memory ran out before the first write.
    Memory,
}

impl Status {
    ghost use Rattle.run_endings.specs.Codes.{code_of};

    /// The status as the exit status of a program: 0 to 6, in the order above.
    pub fn code(self) -> u8
        ensures { result ≡ code_of self }
    {
        match self {
            Status::Clean => 0,
            Status::Done => 1,
            Status::BadWords => 2,
            Status::LoadRefused => 3,
            Status::ReadFault => 4,
            Status::WriteFault => 5,
            Status::Memory => 6,
        }
    }
}

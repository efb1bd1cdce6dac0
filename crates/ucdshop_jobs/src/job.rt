//! What the words of a run ask for, as data.

ghost use Rattle.std.specs.Prelude.{◌≡◌, IfOk};
ghost use Rattle.ucdshop_jobs.specs.JobWords.{job_of, path_at};
ghost use Rattle.ucdshop_jobs.specs.Jobs.{apply_job, compare_job, derive_job, make_job};
ghost use Rattle.ucdshop_jobs.specs.Run.{earlier_place};

use run_endings::path_in;
use std::alloc::Global;
use ucd_model::{Memory, SOURCE_FILES, Text};

/// A part of what is written.
#[derive(Clone, Copy, Debug, PartialEq, Eq)]
pub enum Part {
    /// The source files, as the commands of the script leave them.
    Sources,
    /// The files that are derived from these.
    Derived,
    /// The log.
    Log,
    /// The answers to the questions.
    Sets,
    /// The policy report.
    Report,
    /// The source files and the script as they are made, if they are.
    Made,
}

/// Where the file of a script lies.
#[derive(Clone, Copy, Debug)]
pub enum ScriptPlace<'a> {
    /// At this path.
    Named(&'a [u8]),
    /// Below a folder.
    Below {
        folder: &'a [u8],
        name: &'static [u8],
    },
}

impl ScriptPlace<'_> {
    /// The path.
    ///
    /// - `Memory`: memory ran out.
    pub fn path(self, alloc: Global) -> Result<Text, Memory>
        ensures { IfOk result (λ path. path ≡ path_at self.entry) }
    {
        match self {
            ScriptPlace::Named(path) => Text::of(alloc, path),
            ScriptPlace::Below { folder, name } => path_in(alloc, folder, name),
        }
    }
}

/// What the words of a run ask for.
#[derive(Clone, Copy, Debug)]
pub struct Job<'a> {
    /// The number, from 1 to 50, of which the release and its script are made; `None` if they are read.
    pub made: Option<u8>,
    /// The folder of the release. What is made is judged as the files of the folder that it is written into.
    pub folder: &'a [u8],
    /// The script that is carried out on the release.
    pub script: Option<ScriptPlace<'a>>,
    /// The folder of the earlier release that it is compared with.
    pub previous: Option<&'a [u8]>,
    /// The folder that is written into.
    pub output: &'a [u8],
    /// What is written there, in order.
    pub parts: &'static [Part],
}

impl<'a> Job<'a> {
    /// `derive`: derive the files of the folder `input` into the folder `output`.
    pub fn derive(input: &'a [u8], output: &'a [u8]) -> Job<'a>
        ensures { job_of result ≡ derive_job input.now output.now }
    {
        Job {
            made: None,
            folder: input,
            script: None,
            previous: None,
            output,
            parts: &[Part::Derived],
        }
    }

    /// `apply`: carry the script out on the files of the folder `input`. What they are then, and what is derived from
    /// them, goes into the folder `output`.
    pub fn apply(input: &'a [u8], script: &'a [u8], output: &'a [u8]) -> Job<'a>
        ensures { job_of result ≡ apply_job input.now script.now output.now }
    {
        Job {
            made: None,
            folder: input,
            script: Some(ScriptPlace::Named(script)),
            previous: None,
            output,
            parts: &[Part::Sources, Part::Derived, Part::Log, Part::Sets],
        }
    }

    /// `apply` with an earlier release: the same, and report what then breaks a stability policy against the release in the
    /// folder `previous`.
    pub fn compare(
        input: &'a [u8],
        script: &'a [u8],
        output: &'a [u8],
        previous: &'a [u8],
    ) -> Job<'a>
        ensures { job_of result ≡ compare_job input.now script.now output.now previous.now }
    {
        Job {
            made: None,
            folder: input,
            script: Some(ScriptPlace::Named(script)),
            previous: Some(previous),
            output,
            parts: &[
                Part::Sources,
                Part::Derived,
                Part::Log,
                Part::Sets,
                Part::Report,
            ],
        }
    }

    /// `make`: make the release of a number, from 1 to 50, and a script for it. Both go into the folder `output`.
    pub fn make(number: u8, output: &'a [u8]) -> Job<'a>
        ensures { job_of result ≡ make_job number output.now }
    {
        Job {
            made: Some(number),
            folder: output,
            script: Some(ScriptPlace::Below {
                folder: output,
                name: b"script.txt",
            }),
            previous: None,
            output,
            parts: &[Part::Made],
        }
    }

    /// The place of the first file of the earlier release among what is held: after the release and the script.
    pub fn earlier_place(self) -> usize
        ensures { result ≡ earlier_place (job_of self.entry) }
    {
        match self.script {
            Some(_) => SOURCE_FILES.len() + 1,
            None => SOURCE_FILES.len(),
        }
    }
}

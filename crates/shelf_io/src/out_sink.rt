//! The sink of a writer, as standard output is one.

ghost use Rattle.std.specs.Prelude.{◌≡◌, ◌<◌, ◌≤◌, ℕ, [], false, is_err, length, take, OnOk, OnErr};
ghost use Rattle.std.specs.Io.KnownBytes.{Appends};
ghost use Rattle.shelf_io.specs.Counts.{faults_after};

use crate::shelf::Failed;
use crate::sink::Sink;
use crate::standard_output::StandardOutput;
use crate::transfer::write_all;
use std::io::Write;
use std::marker::Model;

/// A writer, to which all that is put is written. As a sink it tells nothing of what was written. Contracts see the
/// writer, and how many puts failed.
#[derive(Drop)]
pub struct OutSink<W: Write> {
    writer: W,
    faults: u64,
}

impl<W: Write> Model for OutSink<W> {
    ghost use Rattle.shelf_io.specs.Systems.{OutView};

    ghost Value = { OutView W };

    ghost view = { λ a. record { writer = a.writer; faults = a.faults } };
}

impl<R: Print> OutSink<StandardOutput<R>> {
    /// The standard output of this runtime. Nothing has failed yet.
    pub fn new(runtime: R) -> OutSink<StandardOutput<R>>
        ensures { result.faults ≡ 0 }
    {
        OutSink::to(StandardOutput::new(runtime))
    }
}

impl<W: Write> OutSink<W> {
    /// This writer. Nothing has failed yet.
    pub fn to(writer: W) -> OutSink<W>
        ensures { result ≡ record { writer = writer; faults = 0 } }
    {
        OutSink { writer, faults: 0 }
    }
}

impl<W: Write> Sink for OutSink<W> {
    ghost tells = { false };

    ghost written = { λ _. [] };

    ghost faults = { λ sink. sink.faults };

    fn put(&mut self, bytes: &[u8]) -> Result<(), Failed>
        ensures ok { OnOk result (Appends (W.contents self.old.writer)
            (W.contents self.new.writer) bytes.now) }
        ensures err { OnErr result
            ((k : ℕ) × (k < length bytes.now)
            × Appends (W.contents self.old.writer) (W.contents self.new.writer)
            (take k bytes.now)) }
        ensures counted { self.new.faults ≡ faults_after (is_err result) self.old.faults }
        ensures faults_never_fall { self.old.faults ≤ self.new.faults }
    {
        let answer = write_all(&mut self.writer, bytes);
        if answer.is_err() {
            self.faults = self.faults.saturating_add(1);
        }
        answer
    }
}

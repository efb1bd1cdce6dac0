//! The system's own calls. This file is trusted: no clause can say what a system does.

ghost use Rattle.std.specs.Prelude.{◌≡◌, ◌≤◌, false, true};
ghost use Rattle.shelf_io.specs.Counts.{Rose};

use crate::replacing::create_beside_if_permitted;
use crate::system::System;
use std::fs::OpenFile;
use std::io::{Read, Write};
use std::rt::Files;
use std::{fs, io};

/// The files and folders that a runtime reaches, by the system's own calls, of which it counts those that fail. It tells
/// nothing of what is there.
#[derive(Drop)]
pub struct SystemCalls<R: Files> {
    runtime: R,
    faults: u64,
}

impl<R: Files> SystemCalls<R> {
    /// The calls of this runtime. None has failed yet.
    pub fn new(runtime: R) -> SystemCalls<R> {
        SystemCalls { runtime, faults: 0 }
    }

    /// Counts a call if it failed.
    fn count(&mut self, failed: bool)
        ensures failed { failed ≡ true → Rose self.old.faults self.new.faults }
        ensures uncounted { failed ≡ false → self.new.faults ≡ self.old.faults }
        ensures never_falls { self.old.faults ≤ self.new.faults }
    {
        if failed {
            self.faults = self.faults.saturating_add(1);
        }
    }
}

impl<R: Files> System for SystemCalls<R> {
    ghost use Rattle.shelf_io.specs.Systems.Entry.{Nothing};

    type Opened = R::File;

    type Created = R::File;

    ghost tells = { false };

    ghost at = { λ _ _. Nothing };

    ghost replaces = { λ _ _. false };

    ghost faults = { λ calls. calls.faults };

    fn open(&mut self, path: &str) -> io::Result<R::File> {
        let answer = fs::open(&self.runtime, path);
        self.count(answer.is_err());
        answer
    }

    fn read(&mut self, file: &mut R::File, buf: &mut [u8]) -> io::Result<usize> {
        let answer = file.read(buf);
        self.count(answer.is_err());
        answer
    }

    fn make_folders(&mut self, path: &str) -> io::Result<()> {
        let answer = fs::create_dir_all(&self.runtime, path);
        self.count(answer.is_err());
        answer
    }

    fn create(&mut self, path: &str) -> io::Result<R::File> {
        let answer = fs::create(&self.runtime, path);
        self.count(answer.is_err());
        answer
    }

    fn create_beside(&mut self, path: &str, beside: &str) -> io::Result<Option<R::File>> {
        let answer = create_beside_if_permitted(&self.runtime, path, beside);
        self.count(answer.is_err());
        answer
    }

    fn write(&mut self, file: &mut R::File, buf: &[u8]) -> io::Result<usize> {
        let answer = file.write(buf);
        let takes = matches!(answer, Ok(taken) if taken > 0 || buf.is_empty());
        self.count(!takes);
        answer
    }

    fn keep(&mut self, _path: &str, file: R::File) -> io::Result<()> {
        let answer = file.sync_all();
        self.count(answer.is_err());
        answer
    }

    fn close(&mut self, _path: &str, _file: R::File) {}

    fn rename(&mut self, from: &str, to: &str) -> io::Result<()> {
        let answer = fs::rename(&self.runtime, from, to);
        self.count(answer.is_err());
        answer
    }
}

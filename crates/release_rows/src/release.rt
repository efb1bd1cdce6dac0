//! The source files of a release.

ghost use Rattle.std.specs.Prelude.{◌≡◌, ◌≢◌, [], filter, Ok, IfOk, OnOk};
ghost use Rattle.std.specs.Option.{IfSome};
ghost use Rattle.ucd_points.specs.declared.files.SourceFile.{SourceFile as FileValue};
ghost use Rattle.release_rows.specs.Cuts.{Ascends};
ghost use Rattle.release_rows.specs.FileItems.{bytes_of, rows_in};
ghost use Rattle.release_rows.specs.Laws.{Reloads};
ghost use Rattle.release_rows.specs.Loading.{load_or_fault};
ghost use Rattle.release_rows.specs.Patches.{AnswersBack, IsWayBack, LeadsBack};
ghost use Rattle.release_rows.specs.Operations.{AnswersOp, IsOp, op_file, op_or_rule, touched};
ghost use Rattle.release_rows.specs.Releases.{AllAreKept, AnswersLoad, AreKept, items_now, items_next, no_items, rows_at};
ghost use Rattle.release_rows.specs.Touching.{meets};

use crate::back::undo_all;
use crate::laws::reloads_the_same;
use crate::load_items::load_items;
use crate::load_stop::{LoadRule, LoadStop};
use crate::nine_files::{
    NineFiles, commit_all, copied_files, discard_all, items_at, no_items, prepare_in, put,
};
use crate::operation::{Op, OpStop};
use crate::patch::{Patch, way_back};
use crate::row_iter::Rows;
use crate::row_text::RowText;
use std::alloc::Global;
use std::marker::Model;
use ucd_facts::{Copied, Memory, SourceFile, Span, Spans, Text, file_limit};

/// The answer to a file above the limit.
const TOO_LONG: LoadStop = LoadStop::Fault {
    line: 0,
    rule: LoadRule::G02,
};

/// The source files of a release. Contracts see the items of each file, now and next.
///
/// In each file keys differ, rows do not overlap if that is forbidden, and each row is read from its bytes. The rows of
/// UnicodeData.txt ascend.
#[derive(Debug, Drop)]
pub struct Release {
    alloc: Global,
    files: NineFiles,
}

impl Model for Release {
    ghost use Rattle.std.specs.Prelude.{◌≡◌, map};
    ghost use Rattle.ucd_points.specs.SourceFiles.{source_files};
    ghost use Rattle.release_rows.specs.Releases.{ReleaseItems, AllAreKept, files_now, files_next};

    ghost Value = { ReleaseItems };

    ghost view = { λ r. record { current = files_now r.files; prepared = files_next r.files } };

    ghost invariant = { λ r. AllAreKept (files_now r.files) × AllAreKept (files_next r.files) × (map (λ lists. lists.file) r.files ≡ source_files) };
}

impl Release {
    /// The release whose files have no items. It takes no memory.
    pub fn empty(alloc: Global) -> Release
        ensures { result ≡ record { current = no_items; prepared = no_items } }
    {
        Release {
            alloc,
            files: no_items(alloc),
        }
    }

    /// Loads a file that has no items yet.
    ///
    /// - `Fault { line, rule }`: the first line that breaks a rule, counted from 1 over all lines, and the first rule
    ///   that it breaks: those of the row by itself, then K1, K4 and K5. A file above the limit has `G02`, on line 0.
    /// - `Memory`: memory ran out.
    ///
    /// After either the release is as it was.
    pub fn load_file(&mut self, file: SourceFile, bytes: &[u8]) -> Result<(), LoadStop>
        requires { items_now self.old file ≡ [] }
        ensures answer { AnswersLoad result (load_or_fault file bytes.now) file self.old self.new }
        ensures items { OnOk result (load_or_fault file bytes.now ≡ Ok (items_now self.new file)) }
        ensures lossless { OnOk result (bytes_of (items_now self.new file) ≡ bytes.now) }
        ensures others { (other : FileValue) → other ≢ file
            → items_now self.new other ≡ items_now self.old other }
    {
        if bytes.len() > file_limit() {
            return Err(TOO_LONG);
        }
        let text = Text::of(self.alloc, bytes)?;
        self.load_text(file, text)
    }

    /// Loads a file that has no items yet, and keeps its text without a copy. The answers are those of `load_file`.
    pub fn load_text(&mut self, file: SourceFile, text: Text) -> Result<(), LoadStop>
        requires { items_now self.old file ≡ [] }
        ensures answer { AnswersLoad result (load_or_fault file text) file self.old self.new }
        ensures items { OnOk result (load_or_fault file text ≡ Ok (items_now self.new file)) }
        ensures lossless { OnOk result (bytes_of (items_now self.new file) ≡ text) }
        ensures others { (other : FileValue) → other ≢ file
            → items_now self.new other ≡ items_now self.old other }
    {
        if text.len() > file_limit() {
            return Err(TOO_LONG);
        }
        let items = load_items(self.alloc, file, text)?;
        put(&mut self.files, file, items);
        Ok(())
    }

    /// The bytes of a file now. For a file that was loaded, they are the bytes that it was loaded from. For an edited
    /// file, they are loaded as its items again, if they are within the limit and no content that LF alone ends has a
    /// CR at its end.
    ///
    /// - `Memory`: memory ran out.
    pub fn text(&self, alloc: Global, file: SourceFile) -> Result<Text, Memory>
        ensures { IfOk result (λ text. text ≡ bytes_of (items_now self.now file)) }
    {
        items_at(&self.files, file).text(alloc)
    }

    /// The bytes of a file now, without a copy, if they are kept as one text: the file was not edited. `None` of another.
    pub fn whole_text(&self, file: SourceFile) -> Option<&[u8]>
        ensures { IfSome result (λ bytes. bytes.now ≡ bytes_of (items_now self.now file)) }
    {
        items_at(&self.files, file).whole_text()
    }

    /// The rows of a file now, in the order of the file, each with the number of its first line.
    pub fn rows(&self, file: SourceFile) -> Rows<'_>
        ensures rows { result ≡ rows_at (items_now self.now file) }
        ensures kept { AreKept file (items_now self.now file) }
        ensures ascends { Ascends file (rows_in (items_now self.now file)) }
        ensures reloads { Reloads file (items_now self.now file) }
    {
        reloads_the_same();
        items_at(&self.files, file).rows()
    }

    /// The rows of a file next, in the order of the file, each with the number of its first line.
    pub fn next_rows(&self, file: SourceFile) -> Rows<'_>
        ensures rows { result ≡ rows_at (items_next self.now file) }
        ensures kept { AreKept file (items_next self.now file) }
        ensures ascends { Ascends file (rows_in (items_next self.now file)) }
        ensures reloads { Reloads file (items_next self.now file) }
    {
        reloads_the_same();
        items_at(&self.files, file).next_rows()
    }

    /// The rows of a file next that speak of a code point in some of the spans, in the order of the file. Every other row
    /// is ruled out by its bounds, or by those of the part of the file in which it stands; it is not read.
    ///
    /// - `Memory`: memory ran out.
    pub fn next_rows_in(
        &self,
        alloc: Global,
        file: SourceFile,
        spans: &[Span],
    ) -> Result<Vec<RowText<'_>>, Memory>
        ensures rows { IfOk result
            (λ rows. rows.items
            ≡ filter (meets spans.now) (rows_in (items_next self.now file))) }
    {
        items_at(&self.files, file).next_rows_in(alloc, spans)
    }

    /// Carries out an operation on what is prepared, and answers the code points that it touches. Outside of them the
    /// rows that speak of a code point stay (`rows_stay`).
    ///
    /// - `Key(K1)`: a row of the file has the key of the row that is added.
    /// - `Key(K2)`: no row has the key of the row that is changed, or the key that is withdrawn.
    /// - `Key(K4)`: the row overlaps another one, and the file forbids it.
    /// - `Memory`: memory ran out, or the text that the file is kept in would have 2^32 bytes or more.
    ///
    /// After each what is prepared is as it was.
    pub fn prepare(&mut self, op: &Op) -> Result<Spans, OpStop>
        requires { IsOp op.now }
        ensures now { self.new.current ≡ self.old.current }
        ensures answer { AnswersOp result (op_or_rule self.old.prepared op.now)
            (touched (items_next self.old (op_file op.now)) op.now) self.old.prepared
            self.new.prepared }
    {
        prepare_in(&mut self.files, self.alloc, op)
    }

    /// Makes what is prepared what is current. It takes no memory.
    pub fn commit(&mut self)
        ensures { self.new ≡ record { current = self.old.prepared; prepared = self.old.prepared } }
    {
        commit_all(&mut self.files);
    }

    /// Drops what is prepared: what is current is prepared again. It takes no memory.
    pub fn discard(&mut self)
        ensures { self.new ≡ record { current = self.old.current; prepared = self.old.current } }
    {
        discard_all(&mut self.files);
    }
}

/// Ways back.
impl Release {
    /// The way from what is prepared back to what is current. It holds what was exchanged in each part of a file that was
    /// edited, with its bytes.
    ///
    /// - `Memory`: memory ran out, or what was exchanged in a part has 2^32 bytes or more.
    pub fn patch(&self) -> Result<Patch, Memory>
        ensures { IfOk result (λ patch. LeadsBack patch self.now.prepared self.now.current) }
    {
        way_back(&self.files, self.alloc)
    }

    /// Prepares what a patch leads back to, and answers the code points that its rows speak of. Outside of them the rows
    /// that speak of a code point stay (`rows_stay_back`).
    ///
    /// - `Memory`: memory ran out, or the text that a file is kept in would have 2^32 bytes or more. What is prepared is as
    ///   it was.
    pub fn prepare_back(&mut self, patch: &Patch) -> Result<Spans, Memory>
        requires still { self.old.prepared ≡ self.old.current }
        requires way { IsWayBack patch.now self.old.current }
        ensures answer { AnswersBack result patch.now self.old self.new }
    {
        let told = undo_all(&mut self.files, self.alloc, patch.as_slice());
        if told.is_err() {
            discard_all(&mut self.files);
        }
        told
    }

    /// What is current is what a release keeps: nine files, of which each is sound.
    pub fn current_files_are_kept(&self)
        ensures { AllAreKept self.now.current }
    {
        let _files = &self.files;
    }
}

impl Copied for Release {
    fn copied(&self, alloc: Global) -> Result<Release, Memory> {
        let files = copied_files(alloc, &self.files)?;
        Ok(Release { alloc, files })
    }
}

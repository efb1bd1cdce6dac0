//! What the shelf of the system asks of the system: files and folders by their paths.

ghost use Rattle.std.specs.Prelude.{◌≡◌, ◌≢◌, ◌≤◌, Bool, false, List, ℕ, [], Some, IsTrue, IsErrAnd, IsSome, IfSome, IfOk, IfErr, OnOk, OnErr, MatchOption, ⊤};
ghost use Rattle.std.specs.IoError.{error_kind};
ghost use Rattle.std.specs.Io.{ReadsAtMost, WritesAtMost};
ghost use Rattle.std.specs.Io.KnownBytes.{ReadConsumes, WriteAppends};
ghost use Rattle.shelf_io.specs.Counts.{Rose};
ghost use Rattle.shelf_io.specs.Contents.{SameContents, OnlyPath};
ghost use Rattle.shelf_io.specs.Beside.{beside as beside_name};
ghost use Rattle.shelf_io.specs.Systems.{Entry, IsKept, SameEntries, TakesNone, TakesSome, file_of, files_of, folder_of};
ghost use Rattle.shelf_io.specs.Systems.Entry.{Nothing, Folder, File, Kept, Created};

use std::io;
use std::io::{ErrorKind, Read, Write};

/// The calls on files and folders that a `DiskShelf` makes. Paths are texts; a slash ends a folder's name. Each call that
/// fails is counted, and no other.
pub trait System {
    /// A file that was opened. It is read from its beginning.
    type Opened: Read + Drop;

    /// A file that was created. It is written from its beginning.
    type Created: Write + Drop;

    // whether systems of this type tell what is there
    ghost tells: { Bool };

    // what is at each path
    ghost at: { Self → List ℕ → Entry };

    // whether the file of a name is replaced by renaming another one, and not written where it stands
    ghost replaces: { Self → List ℕ → Bool };

    // how many calls failed: they answered an error, or a write took none of its bytes
    ghost faults: { Self → ℕ };

    /// Opens a file.
    ///
    /// - `ErrorKind::NotFound`: nothing is there. Every other error says that what is there could not be opened.
    fn open(&mut self, path: &str) -> io::Result<Self::Opened>
        ensures file { IsTrue tells
            → IfOk result (λ file. IsSome (file_of (at self.old path.now))
            × (Self.Opened.remaining file ≡ file_of (at self.old path.now))) }
        ensures missing { IsTrue tells → at self.old path.now ≡ Nothing →
            IsErrAnd result (λ e. error_kind e ≡ ErrorKind.NotFound) }
        ensures not_found { IsTrue tells → IfErr result (λ e.
            error_kind e ≡ ErrorKind.NotFound → at self.old path.now ≡ Nothing) }
        ensures stays { IsTrue tells → SameEntries (at self.old) (at self.new) }
        ensures failed_only { OnErr result (Rose (faults self.old) (faults self.new)) }
        ensures uncounted { OnOk result (faults self.new ≡ faults self.old) }
        ensures faults_never_fall { faults self.old ≤ faults self.new };

    /// Reads the next bytes of a file that was opened, and answers how many: none at its end, or if none are asked for.
    fn read(&mut self, file: &mut Self::Opened, buf: &mut [u8]) -> io::Result<usize>
        ensures bound { ReadsAtMost result buf.new }
        ensures bytes { ReadConsumes (Self.Opened.remaining file.old)
            (Self.Opened.remaining file.new) result buf.new }
        ensures stays { IsTrue tells → SameEntries (at self.old) (at self.new) }
        ensures failed_only { OnErr result (Rose (faults self.old) (faults self.new)) }
        ensures uncounted { OnOk result (faults self.new ≡ faults self.old) }
        ensures faults_never_fall { faults self.old ≤ faults self.new };

    /// Makes a folder and the folders above it, if they are missing. No file changes.
    ///
    /// - An error: the folder may be missing.
    fn make_folders(&mut self, path: &str) -> io::Result<()>
        ensures ok { IsTrue tells → OnOk result (at self.new path.now ≡ Folder) }
        ensures files_stay { IsTrue tells
            → SameContents (files_of (at self.old)) (files_of (at self.new)) }
        ensures replaces_stay { IsTrue tells → (q : List ℕ)
            → replaces self.new q ≡ replaces self.old q }
        ensures failed_only { OnErr result (Rose (faults self.old) (faults self.new)) }
        ensures uncounted { OnOk result (faults self.new ≡ faults self.old) }
        ensures faults_never_fall { faults self.old ≤ faults self.new };

    /// Creates an empty file, in place of the one that was there, in a folder that is there. Every other file stays.
    ///
    /// - An error: what is at this path may have changed.
    fn create(&mut self, path: &str) -> io::Result<Self::Created>
        requires folder { IsTrue tells
            → IfSome (folder_of path.now) (λ folder. at self.old folder ≡ Folder) }
        ensures created { IsTrue tells → OnOk result (at self.new path.now ≡ Created) }
        ensures empty { IsTrue tells → IfOk result (λ file. Self.Created.contents file ≡ Some []) }
        ensures others { IsTrue tells
            → OnlyPath path.now (files_of (at self.old)) (files_of (at self.new)) }
        ensures failed_only { OnErr result (Rose (faults self.old) (faults self.new)) }
        ensures uncounted { OnOk result (faults self.new ≡ faults self.old) }
        ensures faults_never_fall { faults self.old ≤ faults self.new };

    /// Creates an empty file at the name beside a path, which is to take the place of the file at the path; or answers
    /// `None`, if that one is to be written where it stands. What was at the name beside is replaced, and every other
    /// file stays.
    ///
    /// - An error: what is at the name beside may have changed.
    fn create_beside(&mut self, path: &str, beside: &str) -> io::Result<Option<Self::Created>>
        requires folder { IsTrue tells
            → IfSome (folder_of path.now) (λ folder. at self.old folder ≡ Folder) }
        requires beside { beside.now ≡ beside_name path.now }
        ensures created { IsTrue tells
            → IfOk result (λ made. IsSome made → at self.new beside.now ≡ Created) }
        ensures empty { IsTrue tells
            → IfOk result (λ made. IfSome made (λ file. Self.Created.contents file ≡ Some [])) }
        ensures in_place { IsTrue tells
            → IfOk result (λ made. MatchOption made
            ((replaces self.old path.now ≡ false) × SameEntries (at self.old) (at self.new))
            (λ _. ⊤)) }
        ensures others { IsTrue tells
            → OnlyPath beside.now (files_of (at self.old)) (files_of (at self.new)) }
        ensures failed_only { OnErr result (Rose (faults self.old) (faults self.new)) }
        ensures uncounted { OnOk result (faults self.new ≡ faults self.old) }
        ensures faults_never_fall { faults self.old ≤ faults self.new };

    /// Writes the next bytes of a file that was created, and answers how many were taken. It is a fault to take none of
    /// some bytes.
    fn write(&mut self, file: &mut Self::Created, buf: &[u8]) -> io::Result<usize>
        ensures bound { WritesAtMost result buf.now }
        ensures bytes { WriteAppends (Self.Created.contents file.old)
            (Self.Created.contents file.new) result buf.now }
        ensures stays { IsTrue tells → SameEntries (at self.old) (at self.new) }
        ensures failed_only { TakesNone result buf.now (Rose (faults self.old) (faults self.new)) }
        ensures uncounted { TakesSome result buf.now (faults self.new ≡ faults self.old) }
        ensures faults_never_fall { faults self.old ≤ faults self.new };

    /// Has the system keep what was written to the file that was created at this path, so that it outlasts a loss of
    /// power, and closes it.
    ///
    /// - An error: what is at this path may have changed.
    fn keep(&mut self, path: &str, file: Self::Created) -> io::Result<()>
        requires created { IsTrue tells → at self.old path.now ≡ Created }
        ensures kept { IsTrue tells → OnOk result (IfSome (Self.Created.contents file) (λ bytes.
            at self.new path.now ≡ Kept bytes)) }
        ensures others { IsTrue tells
            → OnlyPath path.now (files_of (at self.old)) (files_of (at self.new)) }
        ensures failed_only { OnErr result (Rose (faults self.old) (faults self.new)) }
        ensures uncounted { OnOk result (faults self.new ≡ faults self.old) }
        ensures faults_never_fall { faults self.old ≤ faults self.new };

    /// Closes the file that was created at this path. From then on the path has what was written to the file.
    fn close(&mut self, path: &str, file: Self::Created)
        requires created { IsTrue tells → at self.old path.now ≡ Created }
        ensures held { IsTrue tells → IfSome (Self.Created.contents file) (λ bytes.
            at self.new path.now ≡ File bytes) }
        ensures others { IsTrue tells
            → OnlyPath path.now (files_of (at self.old)) (files_of (at self.new)) }
        ensures uncounted { faults self.new ≡ faults self.old };

    /// Gives a file that the system keeps another name, in place of the file that had it, in one step.
    ///
    /// - An error: nothing has changed.
    fn rename(&mut self, from: &str, to: &str) -> io::Result<()>
        requires kept { IsTrue tells → IsKept (at self.old from.now) }
        requires another { from.now ≢ to.now }
        ensures moved { IsTrue tells → OnOk result (at self.new to.now ≡ at self.old from.now) }
        ensures gone { IsTrue tells → OnOk result (at self.new from.now ≡ Nothing) }
        ensures others { IsTrue tells → OnOk result
            ((q : List ℕ) → q ≢ from.now → q ≢ to.now → at self.new q ≡ at self.old q) }
        ensures err { IsTrue tells → OnErr result (SameEntries (at self.old) (at self.new)) }
        ensures failed_only { OnErr result (Rose (faults self.old) (faults self.new)) }
        ensures uncounted { OnOk result (faults self.new ≡ faults self.old) }
        ensures faults_never_fall { faults self.old ≤ faults self.new };
}

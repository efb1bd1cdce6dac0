//! Writing the files that a run makes.

ghost use Rattle.std.specs.Prelude.{◌≡◌, ◌≢◌, ℕ, ◌+◌, ◌<◌, ◌≤◌, IsTrue, OnOk, OnErr, IfErr, ◌∷◌, length, take, map};
ghost use Rattle.shelf_io.specs.Counts.{Rose};
ghost use Rattle.run_endings.specs.Endings.{Replaced};
ghost use Rattle.run_endings.specs.Writing.{files_of, StoppedAt};

use crate::output::Output;
use shelf_io::Shelf;
use ucd_points::Text;

/// Writes files in order. It takes no memory.
///
/// - a line of text: the file that it names could not be written. The files before it are written, it holds anything or
///   is absent, and those after it are not touched.
pub fn write_all<S: Shelf>(shelf: &mut S, outputs: Vec<Output>) -> Result<(), Text>
    requires { length outputs.items ≤ S.spare shelf.old }
    ensures ok { IsTrue S.tells → OnOk result
        (Replaced (files_of outputs.items) (S.holds shelf.old) (S.holds shelf.new)) }
    ensures stopped { IfErr result
        (λ line. StoppedAt line outputs.items S.tells (S.holds shelf.old) (S.holds shelf.new)) }
    ensures failed_only { OnErr result
        (Rose (S.write_faults shelf.old) (S.write_faults shelf.new)) }
    ensures read_faults_stay { S.read_faults shelf.new ≡ S.read_faults shelf.old }
    ensures last_failed_stays { IsTrue S.tells_failed
        → S.last_failed shelf.new ≡ S.last_failed shelf.old }
    ensures write_faults_never_fall { S.write_faults shelf.old ≤ S.write_faults shelf.new }
{
    let mut rest = outputs;
    'outputs: while !rest.is_empty() {
        let Output {
            path,
            bytes,
            fault_line,
        } = take_first(&mut rest);
        let Ok(()) = shelf.write(path, bytes) else {
            return Err(fault_line);
        };
    }
    Ok(())
}

/// Takes the first output out.
fn take_first(outputs: &mut Vec<Output>) -> Output
    requires { 0 < length outputs.old.items }
    ensures { outputs.old.items ≡ result ∷ outputs.new.items }
{
    outputs.remove(0)
}

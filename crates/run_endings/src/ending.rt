//! How a run ends.

ghost use Rattle.std.specs.Prelude.{◌≡◌, ◌≤◌, IsTrue, OnOk, length};
ghost use Rattle.run_endings.specs.Ends.{Ends, HasRoom};
ghost use Rattle.run_endings.specs.Outcome.{Finished, StoppedWith, Told, status_if};
ghost use Rattle.run_endings.specs.Planning.{OnlyRead};
ghost use Rattle.run_endings.specs.Promises.{shelf_seen, sink_seen};

use crate::failure_lines::OUT_OF_MEMORY;
use crate::plan::Plan;
use crate::status::Status;
use crate::stop::Stop;
use crate::writing::write_all;
use shelf_io::{Shelf, Sink};
use ucd_points::Memory;

/// Has a shelf take room for the files of a plan.
///
/// - `Memory`: memory ran out.
pub fn make_room<S: Shelf>(shelf: &mut S, plan: &Plan) -> Result<(), Memory>
    ensures room { OnOk result (length plan.now.outputs.items ≤ S.spare shelf.new) }
    ensures last_failed_stays { IsTrue S.tells_failed
        → S.last_failed shelf.new ≡ S.last_failed shelf.old }
    ensures only_read { OnlyRead (shelf_seen S.Shelf shelf.old shelf.new) }
    ensures read_faults_stay { S.read_faults shelf.new ≡ S.read_faults shelf.old }
{
    shelf.room(plan.outputs.len())
}

/// Ends a run by what was planned, and answers how it ended: tells the usage if the words have no listed form, or the line
/// of a run that stops; else writes the files of the plan, for which there is room, and tells its summary. It takes no memory.
pub fn end_run<S: Shelf, K: Sink>(
    usage: &[u8],
    planned: Option<Result<Plan, Stop>>,
    shelf: &mut S,
    out: &mut K,
) -> Status
    requires { HasRoom planned (S.spare shelf.old) }
    ensures { Ends usage.now planned S.Shelf shelf.old shelf.new
        (sink_seen K.Sink out.old out.new) result }
{
    match planned {
        None => {
            print_line(out, usage);
            Status::BadWords
        }
        Some(Err(stop)) => print_stop(stop, out),
        Some(Ok(plan)) => write_and_summarise(plan, shelf, out),
    }
}

/// Tells a line; if that fails, the status stays what it is.
fn print_line<K: Sink>(out: &mut K, line: &[u8])
    ensures { Told line.now (sink_seen K.Sink out.old out.new) }
{
    let _ = out.put(line);
}

/// Tells the line of a run that stopped before it wrote.
fn print_stop<K: Sink>(stop: Stop, out: &mut K) -> Status
    ensures { StoppedWith stop (sink_seen K.Sink out.old out.new) result }
{
    match stop {
        Stop::Refused(line) => {
            print_line(out, line.as_slice());
            Status::LoadRefused
        }
        Stop::ReadFailed(line) => {
            print_line(out, line.as_slice());
            Status::ReadFault
        }
        Stop::Memory => {
            print_line(out, OUT_OF_MEMORY);
            Status::Memory
        }
    }
}

/// Writes all files, and tells the summary.
fn write_and_summarise<S: Shelf, K: Sink>(plan: Plan, shelf: &mut S, out: &mut K) -> Status
    requires { length plan.outputs.items ≤ S.spare shelf.old }
    ensures last_failed_stays { IsTrue S.tells_failed
        → S.last_failed shelf.new ≡ S.last_failed shelf.old }
    ensures outcome { Finished plan (shelf_seen S.Shelf shelf.old shelf.new)
        (sink_seen K.Sink out.old out.new) result }
{
    let Plan {
        outputs,
        summary,
        done,
    } = plan;
    if let Err(line) = write_all(shelf, outputs) {
        print_line(out, line.as_slice());
        return Status::WriteFault;
    }
    match out.put(summary.as_slice()) {
        Ok(()) => done_or_clean(done),
        Err(_) => Status::WriteFault,
    }
}

/// How a run ended that wrote all files: whether something was refused or is broken.
fn done_or_clean(done: bool) -> Status
    ensures { result ≡ status_if done }
{
    if done { Status::Done } else { Status::Clean }
}

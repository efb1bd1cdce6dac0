//! How a program uses the libraries: it opens the release in a folder, edits it, prints whose records changed, and asks for a set.
//! In the folder of this crate:
//!
//!     $ rt run -- data/letters
//!     2 records changed:
//!     0305
//!     1DF2B
//!     [\p{Mn} & \p{NFC_QC=M}]:
//!     0300..0301
//!     0305..0305
//!
//! `rt run -- /usr/share/unicode` does so with an installed release.
#![tactic(auto)]

ghost use Rattle.std.specs.Prelude.{◌≡◌, IfOk};
ghost use Rattle.std.specs.List.{All};
ghost use Rattle.script_lines.specs.Groups.{AreWellFormed, IsWellFormed};

use anyhow::{Error, Result, anyhow, bail};
use bstr::ByteSlice;
use edit_session::{ApplyStop, Bench, Refused};
use property_aliases::Aliases;
use release_rows::Op;
use run_endings::{Stop, read_inputs};
use run_inputs::{open_folder, source_paths};
use script_lines::{Command, Commands, ScriptStop, What, commands, groups_are_well_formed};
use shelf_io::{DiskShelf, Shelf, words_of};
use std::alloc::Global;
use std::marker::Brand;
use std::sync::ledger::{Blank, Ledger};
use ucd_model::{Memory, Point, Spans, Steps};
use unicodeset_eval::{EvalStop, eval};
use unicodeset_parser::{Expr, parse};

/// A group of edits, and a question. The group has a new letter, which decomposes to a letter and the mark 0305, and the row of its
/// script. The question is which marks may compose with what stands before them: 0305 is one of them now.
const SCRIPT: &[u8] = b"begin
add UnicodeData.txt 1DF2B;LATIN SMALL LETTER RUM WITH OVERLINE;Ll;0;L;A775 0305;;;;N;;;;;
add Scripts.txt 1DF2B ; Latin
end
set [\\p{Mn} & \\p{NFC_QC=M}]
";

/// Takes the folder as its one argument. An error is printed to standard error, and the exit status is then 1.
fn main(rt: HostRuntime) -> Result<()> {
    let words = words_of(&rt, rt.alloc())?;
    let [folder] = words.as_slice() else {
        bail!("usage: bench_use FOLDER");
    };
    use_bench::<Brand>(rt, folder.as_slice(), Blank::new(1))
}

/// Opens the release in a folder, and carries out the script on it.
///
/// A bench counts on a ledger how many code points it derives. Only contracts read it: when the program runs there is
/// none. The requirement is that the ledger is new, as `Blank::new(1)` makes it.
fn use_bench<L: Ledger>(rt: HostRuntime, folder: &[u8], blank: Blank) -> Result<()>
    requires name { blank.name ≡ L.name }
    requires parts { blank.parts ≡ L.parts }
    requires one { blank.parts ≡ 1 }
{
    let alloc = rt.alloc();
    let script = script(alloc)?;
    let mut steps = Steps::<L>::new(blank);
    let mut files = DiskShelf::new(rt);
    let mut bench = open(alloc, &mut files, folder, &mut steps).map_err(error_of_stop)?;
    carry_out(&rt, alloc, &mut bench, script.as_slice(), &mut steps)
}

/// The bench over the nine source files in a folder. All of them are read before the first is judged.
///
/// A shelf is where files lie: [`DiskShelf`] has those of the system, and [`shelf_io::PerfectShelf`] has its own in memory.
fn open<S: Shelf, L: Ledger>(
    alloc: Global,
    shelf: &mut S,
    folder: &[u8],
    steps: &mut Steps<L>,
) -> Result<Bench, Stop> {
    let paths = source_paths(alloc, folder)?;
    let mut texts = read_inputs(alloc, shelf, paths.as_slice())?;
    open_folder(alloc, folder, &mut texts, 0, steps)
}

/// Why there is no bench, as an error, which keeps the first 120 bytes of a line. That of a refusal names the file, its line and the
/// rule that it breaks.
fn error_of_stop(stop: Stop) -> Error {
    match stop {
        Stop::Refused(line) | Stop::ReadFailed(line) => {
            anyhow!("{}", line.as_slice().trim_end().as_bstr())
        }
        Stop::Memory => Memory.into(),
    }
}

/// The commands of the script. A law about scripts, which is called as a function is, says that its groups can be
/// carried out. The prover computes that it is not longer than a file may be.
#[tactic(auto, unfolding(ucd_points::specs::Limits::file_limit))]
fn script(alloc: Global) -> Result<Commands, ScriptStop>
    ensures { IfOk result (All IsWellFormed) }
{
    groups_are_well_formed();
    commands(alloc, SCRIPT)
}

/// Carries out commands, one after the other.
fn carry_out<L: Ledger>(
    rt: &impl Print,
    alloc: Global,
    bench: &mut Bench,
    commands: &[Command],
    steps: &mut Steps<L>,
) -> Result<()>
    requires { All IsWellFormed commands.now }
{
    for command in commands {
        match &command.what {
            What::Group(ops) => edit(rt, alloc, bench, ops.as_slice(), steps)?,
            What::Question(text) => ask(rt, alloc, bench, text.as_slice())?,
        }
    }
    Ok(())
}

/// Carries out a group, and prints the code points of which something else is derived now. If it is refused, the bench
/// is as it was.
fn edit<L: Ledger>(
    rt: &impl Print,
    alloc: Global,
    bench: &mut Bench,
    ops: &[Op],
    steps: &mut Steps<L>,
) -> Result<()>
    requires { AreWellFormed ops.now }
{
    match bench.apply(alloc, ops, steps) {
        Ok(accepted) => print_changed(rt, accepted.changed.as_slice()),
        Err(ApplyStop::Refused(why)) => Err(error_of_refusal(why)),
        Err(ApplyStop::Memory) => Err(Memory.into()),
    }
}

/// Why a group is not carried out, as an error.
fn error_of_refusal(why: Refused) -> Error {
    match why {
        Refused::Key { rule, op } => anyhow!("operation {op} of the group breaks {rule:?}"),
        Refused::Valid { rule, point } => {
            anyhow!("after the group {:04X} breaks {rule:?}", point.number())
        }
    }
}

/// Prints how many records changed, and the code points that they are of.
fn print_changed(rt: &impl Print, points: &[Point]) -> Result<()> {
    println!(rt; "{} records changed:", points.len())?;
    for point in points {
        println!(rt; "{:04X}", point.number())?;
    }
    Ok(())
}

/// Prints the members of the set of a text, as spans.
fn ask(rt: &impl Print, alloc: Global, bench: &Bench, text: &[u8]) -> Result<()> {
    let spans = answer(alloc, bench, text)?;
    println!(rt; "{}:", text.as_bstr())?;
    for span in spans.as_slice() {
        println!(rt; "{:04X}..{:04X}", span.first(), span.last())?;
    }
    Ok(())
}

/// The members of the set of a text. Its form is judged first, then its names.
fn answer(alloc: Global, bench: &Bench, text: &[u8]) -> Result<Spans> {
    let set = parse(alloc, text)?;
    Ok(members(alloc, bench, &set)?)
}

/// The members of a set. The alias files of the release tell what names mean.
///
/// To ask more than once, make a [`unicodeset_eval::SetIndex`] once, and ask by [`unicodeset_eval::eval_over`].
fn members(alloc: Global, bench: &Bench, set: &Expr) -> Result<Spans, EvalStop> {
    let release = bench.release();
    let aliases = Aliases::of(alloc, release)?;
    eval(alloc, bench, release, &aliases, set)
}

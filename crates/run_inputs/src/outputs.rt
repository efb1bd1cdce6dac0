//! What is written of a bench below a folder.

ghost use Rattle.std.specs.Prelude.{◌≡◌, IfOk, OnOk, map};
ghost use Rattle.ucd_model.specs.Cuts.{IsCut};
ghost use Rattle.edit_session.specs.Benches.{bench_record};
ghost use Rattle.ucd_facts.specs.Enumerations.{derived_files};
ghost use Rattle.ucd_points.specs.Limits.{point_count};
ghost use Rattle.ucd_points.specs.SourceFiles.{source_files};
ghost use Rattle.run_endings.specs.Planning.{Puts};
ghost use Rattle.run_endings.specs.Printed.{write_failed};
ghost use Rattle.run_endings.specs.Writing.{file_of};
ghost use Rattle.run_inputs.specs.Files.{derived_file, source_file};

use derived_writer::text_over;
use edit_session::Bench;
use run_endings::{Output, path_in};
use std::alloc::Global;
use ucd_model::{DERIVED_FILES, DerivedFile, Memory, SOURCE_FILES, SourceFile, Span};

/// Puts the source files of a bench below a folder.
///
/// - `Memory`: memory ran out.
pub fn put_sources(
    alloc: Global,
    folder: &[u8],
    bench: &Bench,
    outputs: &mut Vec<Output>,
) -> Result<(), Memory>
    ensures { OnOk result (Puts (map (source_file folder.now bench.now.current) source_files)
        outputs.old.items outputs.new.items) }
{
    'files: for file in &SOURCE_FILES {
        let output = source_output(alloc, folder, *file, bench)?;
        outputs.push(output)?;
    }
    Ok(())
}

/// Puts the files that are derived from a bench below a folder.
///
/// - `Memory`: memory ran out.
pub fn put_derived(
    alloc: Global,
    folder: &[u8],
    bench: &Bench,
    outputs: &mut Vec<Output>,
) -> Result<(), Memory>
    ensures { OnOk result (Puts (map (derived_file folder.now bench.now.current) derived_files)
        outputs.old.items outputs.new.items) }
{
    let pieces = bench.equal_record_spans(alloc)?;
    'files: for file in &DERIVED_FILES {
        let output = derived_output(alloc, folder, *file, bench, pieces.as_slice())?;
        outputs.push(output)?;
    }
    Ok(())
}

/// A source file of a bench below a folder.
fn source_output(
    alloc: Global,
    folder: &[u8],
    file: SourceFile,
    bench: &Bench,
) -> Result<Output, Memory>
    ensures file { IfOk result (λ output. file_of output
        ≡ source_file folder.now bench.now.current file) }
    ensures line { IfOk result (λ output. output.fault_line ≡ write_failed output.path) }
{
    let path = path_in(alloc, folder, file.path())?;
    let bytes = bench.release().text(alloc, file)?;
    Output::of(alloc, path, bytes)
}

/// A derived file below a folder, over the pieces of equal records.
fn derived_output(
    alloc: Global,
    folder: &[u8],
    file: DerivedFile,
    bench: &Bench,
    pieces: &[Span],
) -> Result<Output, Memory>
    requires { IsCut (bench_record bench.now) 0 point_count pieces.now }
    ensures file { IfOk result (λ output. file_of output
        ≡ derived_file folder.now bench.now.current file) }
    ensures line { IfOk result (λ output. output.fault_line ≡ write_failed output.path) }
{
    let path = path_in(alloc, folder, file.path())?;
    let bytes = text_over(alloc, bench, pieces, file)?;
    Output::of(alloc, path, bytes)
}

//! What is asked of a release of the Unicode Character Database, over the files of the system and standard output.
#![tactic(auto)]

use shelf_io::{DiskShelf, OutSink, Sink, words_of};
use std::process::ExitCode;
use ucd_model::Memory;
use ucdshop_look_core::{OUT_OF_MEMORY, Status, run_look};

fn main(rt: HostRuntime) -> ExitCode {
    let alloc = rt.alloc();
    let mut out = OutSink::new(rt);
    let status = match words_of(&rt, alloc) {
        Ok(words) => run_look(alloc, &words, &mut DiskShelf::new(rt), &mut out),
        Err(Memory) => {
            let _ = out.put(OUT_OF_MEMORY);
            Status::Memory
        }
    };
    ExitCode::from(status.code())
}

//! Tests of rows, keys, files, operations, scripts and cases. They stand above the crates that they test, so that each is
//! proved once.
#![tactic(auto)]

#[cfg(test)]
mod cases;
#[cfg(test)]
mod data_files;
#[cfg(test)]
mod edits;
#[cfg(test)]
mod files;
#[cfg(test)]
mod keys;
#[cfg(test)]
mod missing_rows;
#[cfg(test)]
mod pieces;
#[cfg(test)]
mod point_rows;
#[cfg(test)]
mod row_lines;
#[cfg(test)]
mod rows;
#[cfg(test)]
mod scripts;

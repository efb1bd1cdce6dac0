//! Tables that give each code point a value, and are changed in two steps: prepared, and then committed or discarded.
#![tactic(auto)]

mod change;
mod edit;
mod layout;
mod run;
mod run_table;
mod stretches;
mod table;

pub use run::Run;
pub use run_table::RunTable;
pub use stretches::Stretches;
pub use table::Table;

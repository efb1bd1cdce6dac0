//! What runs are given and what they write of it: folders of nine source files, the file beside them, and why either is refused.
#![tactic(auto)]

mod beside;
mod group_lines;
mod held;
mod judging;
mod outputs;
mod paths;
mod refusal;
mod refusal_lines;
mod refusing;
mod script;
mod second;

pub use beside::{open_beside, same_sources};
pub use group_lines::{put_accepted, put_refused};
pub use held::held_at;
pub use judging::{judge_folder, open_folder};
pub use outputs::{put_derived, put_sources};
pub use paths::{put_source_paths, source_paths};
pub use refusal::{FileRule, FolderRefusal, FolderStop, ScriptRefusal};
pub use refusal_lines::{
    file_rule_code, load_rule_code, point_refusal_line, refusal_line, row_rule_code,
    validity_rule_code,
};
pub use refusing::{folder_line, script_line};
pub use script::read_script;
pub use second::second_file;

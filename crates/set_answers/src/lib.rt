//! What questions of sets are answered on the rows and the records of a release, what is kept for them, the text of the answers, and
//! why a question is refused.
#![tactic(auto)]

mod ask_stop;
mod asking;
mod kept_names;
mod kept_pieces;
mod refusals;
mod row_names;
mod set_text;

pub use ask_stop::{AskFault, AskRule, AskStop};
pub use asking::Asking;
pub use kept_names::KeptNames;
pub use kept_pieces::KeptPieces;
pub use refusals::put_refusal;
pub use row_names::RowNames;
pub use set_text::{put_answer, put_members};

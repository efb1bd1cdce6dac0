//! What questions of sets are answered on the release of a bench.
#![tactic(auto)]

mod question_cache;

pub use question_cache::{Asking, QuestionCache};
pub use set_answers::{AskFault, AskRule, AskStop, put_answer, put_members, put_refusal};

//! Files of scripts between marks: lines that begin with `@`.
#![tactic(auto)]

mod decimal;
mod laws;
mod piece;
mod pieces;
mod script;
mod stop;

pub use decimal::decimal_u32;
pub use laws::{piece_line_numbers_fit, pieces_are_few, pieces_are_whole};
pub use piece::{Mark, Piece};
pub use pieces::{Pieces, pieces_of};
pub use script::{misfit_line, piece_commands};
pub use stop::{PieceRule, PieceStop};

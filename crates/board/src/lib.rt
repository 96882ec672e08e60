//! The board: eight calls over version memory that its owner lends.
#![tactic(auto)]

mod admissions;
mod board;
mod call;
mod commits;
mod ends;
mod findings;
mod looks;
mod requests;
mod room;
mod seat;
mod setup;
mod shows;
mod storing;
mod transaction;
mod transactions;

pub use board::Board;
pub use seat::{Held, HeldSeat};
pub use setup::{DEPTH, Unfit, setup_fits};
pub use transaction::Transaction;

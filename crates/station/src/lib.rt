//! The board for C: a whole list of requests is played on a new board, and each is answered.
#![tactic(auto)]

mod answer;
mod numbers;
mod request;
mod run;
mod setup;
mod sizes;
mod status;
#[cfg(test)]
mod tests;

pub use answer::Answer;
pub use request::Request;
pub use run::station_run;
pub use sizes::{station_board_bytes, station_version_bytes};

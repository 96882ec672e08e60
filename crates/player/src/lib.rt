//! Scripts, played on a board.
#![tactic(auto)]

mod lines;
mod memory;
mod scripts;

pub use lines::play_line;
pub use memory::{SLOTS, slots};
pub use scripts::play_script;

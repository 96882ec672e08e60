//! The lines of a script: from bytes to calls, and from outcomes to answer lines.
#![tactic(auto)]

mod answer;
mod answers;
mod cut;
mod input;
mod laws;
mod lines;
mod open;
mod read;
mod scan;
mod token;
mod words;

pub use answer::{GREATEST, answer_numbers, next_line_number, write_answer};
pub use answers::{only_answer, push_answer};
pub use cut::look_up;
pub use input::read_script;
pub use laws::{
    commands_stay_apart, faults_lie_in_their_line, lines_and_commands_match,
    lines_and_headers_match, lines_make_the_script,
};
pub use lines::{Lines, SCRIPT_LIMIT, script_fits};
pub use open::{Unopened, open_script};
pub use read::{read_command, read_header};
pub use scan::LINE_LIMIT;
pub use token::{Token, is_number, number};
pub use words::{Listed, Op};

#[cfg(test)]
mod tests;

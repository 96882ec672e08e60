//! The vocabulary of the board: what can be asked of it, what it replies and why it refuses.
#![tactic(auto)]

mod call;
mod fault;
mod header;
mod refusal;
mod reply;
mod write;

pub use call::{Call, Class, Mode};
pub use fault::Fault;
pub use header::{BoardKind, Header, RuleName};
pub use refusal::Refusal;
pub use reply::Reply;
pub use write::Write;

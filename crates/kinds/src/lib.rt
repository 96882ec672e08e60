//! The kinds of items that a board can hold.
#![tactic(auto)]

mod kind;
mod locomotive;
#[cfg(test)]
mod tests;
mod turnout;

pub use kind::{Kind, kind_is_lawful};
pub use locomotive::{Direction, Locomotive, locomotives_are_lawful};
pub use turnout::{Turnout, turnouts_are_lawful};

//! The admission rules: whether a transaction is granted, and at which place.
#![tactic(auto)]

mod findings;
mod home;
mod named;
mod now;
mod rule;
#[cfg(test)]
mod tests;
mod warp;

pub use findings::Findings;
pub use home::{
    Home, home_keeps_the_four_laws, home_over_any_rule_keeps_the_four_laws,
    home_over_home_keeps_the_four_laws,
};
pub use named::each_named_rule_keeps_the_four_laws;
pub use now::{Now, now_keeps_the_four_laws};
pub use rule::{Rule, each_rule_keeps_the_four_laws, rule_keeps_the_four_laws};
pub use warp::{Warp, warp_keeps_the_four_laws};

//! An item's list of versions in its slots: head first, and rest versions behind it.
#![tactic(auto)]

mod missed;
mod sight;
mod spot;
mod storing;
mod version;

pub use missed::{Missed, count_missed};
pub use sight::{Sight, code_in_sight, find, head_code};
pub use spot::has_room;
pub use storing::{lay_at_rest, store};
pub use version::{Version, codes_tell_versions};

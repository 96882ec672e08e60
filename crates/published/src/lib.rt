//! The board against the published time-warp multi-version algorithm. Each function states a theorem and does nothing.
#![tactic(auto)]

ghost use Rattle.published.specs.Beside.{BoardFollowsPublished, SparedIsRefused};

// Under the rule `warp`, for every list of calls from a new board, the board and the published algorithm run beside it answer alike and keep alike.
pub fn under_warp_the_board_is_the_published_algorithm()
    ensures { BoardFollowsPublished }
{}

// Where the published algorithm aborts a transaction at a read, the board lets it read on and refuses its commit.
pub fn what_a_published_read_aborts_is_refused_at_its_commit()
    ensures { SparedIsRefused }
{}

//! What the page-map machine promises its user: who can change a page, what a guest can see, what a
//! call can tell, what the log says, that rights end at their time, and that nobody sees where Random
//! started while no guest reads what the refill of a translation may write.
#![tactic(auto)]

mod ends;
mod laws;
mod pages;
mod quiet;
mod sharing;

pub use ends::{
    a_share_has_its_givers_end, an_ended_right_leaves_its_rule, no_right_outlives_its_end,
    what_came_of_an_entry_ends_with_it, what_has_ended_is_out_of_reach_until_it_is_granted_anew,
};
pub use laws::{
    a_guest_sees_nothing_but_what_it_was_granted, an_instruction_stops_exactly_where_it_is_denied,
    every_denial_is_logged_and_nothing_else, only_a_granted_store_changes_a_page,
    what_a_call_can_tell, what_looks_alike,
};
pub use pages::{
    a_copy_has_the_bytes_of_that_moment, pages_change_only_as_granted, pages_stay_whole,
};
pub use quiet::{
    quiet_instructions_do_alike, quiet_runs_are_found, quiet_runs_look_alike,
    the_start_of_random_is_not_seen,
};
pub use sharing::{
    a_copy_is_not_reached, a_drop_hands_shares_to_the_one_above,
    an_end_hands_shares_to_the_nearest_that_stays, what_is_revoked_is_out_of_reach,
    what_is_taken_back_is_out_of_reach,
};

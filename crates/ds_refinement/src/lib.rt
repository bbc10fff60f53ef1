//! The refinement between a station, which is a monitor on the whole processor, and the page-map
//! machine that it runs: what the one holds, for which states of the other it stands, and that each
//! instruction, service and boundary of the one is a step of the other; and the course of a unit:
//! what it asks for, how the processor takes it on, and that it is short.
#![tactic(auto)]

mod asked;
mod backs;
mod blocks;
mod bounds;
mod branches;
mod cause;
mod counts;
mod courses;
mod first;
mod handler;
mod instructions;
mod pages;
mod pairs;
mod paths;
mod runs;
mod seats;
mod services;
mod step;
mod tallies;
mod told;
mod turns;
mod writes;

pub use asked::{
    a_touch_leaves_what_is_asked_for, an_exception_is_asked_for, an_instruction_goes_on,
};
pub use backs::{a_double_miss_goes_back, a_late_copy_goes_back};
pub use blocks::{
    a_block_is_a_path, a_sound_station_is_ready, an_exception_ends_a_block,
    the_last_boundary_decides,
};
pub use bounds::{
    a_unit_is_short, a_unit_is_tallied, a_units_course_is_short, there_is_room_to_count,
    what_a_unit_writes_stays, what_was_written_stays,
};
pub use branches::{a_branch_done_again_does_the_same, a_touch_leaves_a_link_or_takes_it_away};
pub use cause::Cause;
pub use counts::{
    a_boundary_is_counted, a_served_boundary_is_counted, a_way_back_is_counted, a_word_is_counted,
    an_ended_unit_is_counted, an_instruction_is_counted,
};
pub use courses::{a_service_goes_on, a_word_goes_on, the_handler_goes_on};
pub use first::a_new_station_stands_for_the_first_state;
pub use handler::{
    a_handler_does_not_see_a_touch, a_miss_enters_the_handler, a_refill_is_a_path, a_word_follows,
    a_word_of_the_handler_is_a_part_of_the_unit, an_exception_enters, the_handler_begins,
};
pub use instructions::{
    a_user_meets_no_bus_error, an_exception_tells_what_was_refused,
    an_instruction_is_one_of_the_machine,
};
pub use pages::{
    a_named_page_lives, a_word_of_a_page_lies_in_its_frame, what_a_user_reaches_is_granted,
};
pub use pairs::no_pair_is_new;
pub use paths::{
    a_boundary_is_real, a_way_back_is_real, an_end_is_real, an_instruction_is_real, paths_join,
    paths_stay_sound, what_was_told_decides,
};
pub use runs::{a_block_is_within_a_run, a_run_goes_on};
pub use seats::{the_first_comes_in, the_runner_leaves, what_is_kept_is_the_whole_state};
pub use services::{
    a_call_ends_its_unit, a_service_ends_its_unit, a_stop_ends_its_unit,
    what_waits_ends_its_unit_or_awaits_a_copy,
};
pub use step::Step;
pub use tallies::{the_counts_are_few, the_counts_hold};
pub use told::{
    a_refused_fetch_is_told, a_refused_load_is_told, a_refused_store_is_told, an_exception_is_told,
    the_buffer_refuses_aligned_addresses,
};
pub use turns::{
    a_boundary_is_served, a_failure_is_not_seen, a_quiet_boundary, an_idle_turn,
    an_idle_turn_is_served, nothing_is_left_to_do, steps_join,
};
pub use writes::a_unit_keeps_what_it_wrote;

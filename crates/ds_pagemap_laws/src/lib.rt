//! Laws of the page-map machine on which the station rests: late loads may be finished before or
//! after anything that the monitor does, lawful states stay lawful, the events that are due are a
//! prefix of those that are left, and no call and no command makes a right end.
#![tactic(auto)]

mod endings;
mod inputs;
mod lawful;
mod settling;

pub use endings::{
    no_call_makes_a_right_end, no_command_makes_a_right_end, what_has_ended_is_gone,
};
pub use inputs::{
    boundaries_leave_events_in_order, first_states_are_lawful, inputs_make_first_states,
    what_is_due_is_a_front,
};
pub use lawful::{
    boundaries_keep_states_lawful, calls_keep_states_lawful, commands_keep_states_lawful,
    runs_keep_states_lawful, steps_of_a_boundary_keep_states_well_formed,
};
pub use settling::{
    a_boundary_with_nothing_to_do_changes_nothing, boundaries_settle, calls_settle,
    commands_settle, ends_of_units_settle, processes_settle,
};

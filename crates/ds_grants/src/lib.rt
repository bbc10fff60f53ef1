//! The permission table, its pages and their frames: who may touch what, and each call and command
//! that changes it. Every change is that of the page state which lies in memory, or a refusal that
//! leaves all as it was.
#![tactic(auto)]

mod argument_checks;
mod buffer_laws;
mod calls;
mod child;
mod commands;
mod ends;
mod families;
mod fault;
mod first;
mod first_tables;
mod grants;
mod holders;
mod late_copies;
mod layout;
mod order;
mod origins;
mod page_tables;
mod regions;
mod represented;
mod rewords;
mod shared_table;
mod sharing;
mod table_words;
mod tally;
mod translation;

pub use buffer_laws::{
    a_buffer_forgets_what_changed, a_filled_buffer_holds, an_empty_buffer_holds, keys_stay,
};
pub use fault::GrantFault;
pub use first::fill_page;
pub use grants::Grants;
pub use late_copies::a_frame_is_free;
pub use order::refusals_have_one_order;
pub use represented::{
    a_change_keeps_what_is_represented, a_number_is_handed_out, pages_leave_tables_as_they_are,
    parents_leave_what_is_represented, tables_leave_pages_as_they_are,
};
pub use table_words::{a_fifth_region_has_no_place, words_hold_after_a_change};

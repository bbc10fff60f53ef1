//! The policy, the input and the permission table: texts to values, and what an access is answered.
#![tactic(auto)]

mod access;
mod cause;
mod command;
mod descent;
mod ends;
mod events;
mod family;
mod fault;
mod grant;
mod mark;
mod memory;
mod names;
mod policy;
mod reading;
mod row;
mod row_ends;
mod row_family;
mod table;
mod table_fault;
mod text;
mod unread;

pub use access::{Access, Rule, Verdict};
pub use cause::{PageCause, PolicyReason, ProcessCause, RuleCause};
pub use command::{Character, Command, TimedCommand};
pub use ds_isa::{Kind, Size};
pub use events::{
    Characters, EventList, Events, EventsFault, InputCause, InputReason, MOST_TICKS, address_of,
    two_blanks_place,
};
pub use fault::PolicyFault;
pub use grant::{Entry, EntryPlace, Grant, Right, forbidden_by};
pub use memory::OutOfMemory;
pub use policy::{Policy, PolicyPage, PolicyProcess, PolicyRule, Source};
pub use reading::count_regions;
pub use row_family::is_child;
pub use table::Table;
pub use table_fault::{NoGrant, TableFull};
pub use text::Text;
pub use unread::Unread;

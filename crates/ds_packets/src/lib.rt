//! Packets of gdb's remote serial protocol: how they are framed, and what they say.
#![tactic(auto)]

mod data;
mod frame;
mod laws;
mod packet;
mod reading;
mod scan;
mod words;

pub use data::{Data, MOST_DATA};
pub use frame::{push_frame, push_hex};
pub use laws::{what_a_stream_says, what_is_framed_comes};
pub use packet::{Action, Packet, Refusal, Report, Who};
pub use reading::{action_for, names_process};
pub use scan::{PacketFault, Scanner};
pub use words::cut_at;

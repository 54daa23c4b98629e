// The steps of the actions on the host's bytes, each equal to the model's, whatever the state: one file for each action.
#![tactic(auto)]

pub mod chmod;
pub mod del;
pub mod drop;
pub mod hcall;
pub mod lswitch;
pub mod new;
pub mod new_sm;
mod parts; // parts.rt: what steps are made of
pub mod pin;
pub mod read;
pub mod ret_ctrl;
mod stealth; // stealth.rt: the stealth line, when the table in force changes
pub mod switch;
mod tables; // tables.rt: what the table in force leads to, changed
pub mod unpin;
pub mod write;

pub use parts::{clear_call, empty_tlb, forget, lose_mark, map, set_pending, translate};

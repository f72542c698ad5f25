//! Runs, as definitions: worlds and their events, what is refused, the calls of disks, stored logs, and the text of a script. They stand
//! in `specs/`; the world and the programs cite them, and so do the laws.
#![tactic(auto)]

mod event;

pub use event::Event;
pub use rc_report::{Which, Wrong};

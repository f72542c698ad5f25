//! Plays a script: from the source's bytes to the sink's text, over a session of `rc_plain_world`.
#![tactic(auto)]

mod cluster;
mod line;
mod program;
mod script;
mod stop;

pub use program::play;

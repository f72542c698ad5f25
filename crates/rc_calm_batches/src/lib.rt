//! Batches of messages among parties at rest: a whole read and a whole commit, delivered in the order sent.
#![tactic(auto)]

//! What is claimed of runs, as definitions: agreement, order, wholeness, several lives, quiet quorums, calm scripts. They stand in
//! `specs/`, and nothing but the laws cites them.
#![tactic(auto)]

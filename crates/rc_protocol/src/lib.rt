//! The step table, as definitions: the rows of clients, shard servers and coordinators, what a node's log gives back, and what a party
//! does. They stand in `specs/`; the tables, nodes and clients of the crates above cite them, and so do runs and laws.
#![tactic(auto)]

//! What the programs are told: their words, workload files, and the generator of scripts.
#![tactic(auto)]

mod arrays;
mod clients;
mod command_line;
mod course;
mod draws;
mod generator;
mod lines;
mod mode;
mod operation;
mod plan;
mod stops;
#[cfg(test)]
mod tests;
mod toml_values;
mod words;
mod workload;
mod workload_file;

pub use generator::generate;
pub use mode::{Mode, WordsFault};
pub use operation::{Operation, Operations};
pub use plan::{ClientPlan, ClientPlans, StopPlan, StopPlans};
pub use words::read_words;
pub use workload::{Workload, WorkloadFault};
pub use workload_file::read_workload;

//! Bodies of transactions, decisions, reasons of refusals, and the lists that are kept and sent of them.
#![tactic(auto)]

mod body;
mod decision;
mod entry;
mod fault;
mod laws;
mod page;
mod parts;
pub mod reading;
mod reason;
mod rows;
#[cfg(test)]
mod tests;
mod unread;
mod writing;

pub use body::Body;
pub use decision::Decision;
pub use entry::{Access, Entry, EntryRef};
pub use fault::BodyFault;
pub use laws::{body_laws, reading_laws};
pub use page::Page;
pub use parts::Parts;
pub use reason::Reason;
pub use rows::Rows;
pub use writing::{put_body, put_decision, put_held, put_page, put_reason, put_report};

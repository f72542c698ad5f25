//! The fields of messages and records as bytes.
#![tactic(auto)]

mod fault;
mod laws;
mod names;
mod reading;
#[cfg(test)]
mod tests;
mod writing;

pub use fault::{FieldFault, ReadFault};
pub use laws::{field_laws, reading_laws};
pub use reading::Fields;
pub use writing::{
    cut_on_err, put_key, put_node, put_party, put_u8, put_u16, put_u32, put_u64, put_val,
};

// One command read to its record, and one record written as its command.
#![tactic(auto)]

mod layout;
mod numbers;
mod reading;
mod rules;
mod writing;

pub use reading::{read_command, write_record};
pub use writing::write_command;

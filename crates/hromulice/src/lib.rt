// The checker as a library for C. Each function answers what a function of the crates below answers, as numbers in structs; one
// answers the library's version, and one the size of a state.
#![tactic(auto)]

mod handing;
mod mounting;
mod single;
mod summaries;
mod version;
mod whole;

pub use handing::{
    hromulice_begin, hromulice_hand_over, hromulice_report_of, hromulice_state_words,
};
pub use mounting::{hromulice_add_mount, hromulice_ask_mount, hromulice_mount_vector};
pub use single::{hromulice_read_command, hromulice_write_command};
pub use version::hromulice_version;
pub use whole::{hromulice_check, hromulice_decode};

// Checks a batch of commands.
#![tactic(auto)]

mod checking;
mod reporting;
mod walking;

pub use checking::{check, judge_batch};
pub use reporting::{report_of, values_of};
pub use walking::walk;

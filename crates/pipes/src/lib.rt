// Standard input and output for programs: what a read means, and bytes handed out by as many writes as it takes.
#![tactic(auto)]

mod reading;
mod writing;

pub use reading::{ReadFailed, hear, read_some};
pub use writing::hand_out;

// The listing program's answer: from a reader that the whole text was fed to, to the bytes that are written.
#![tactic(auto)]

mod output;
mod put;
mod rows;
mod runs;

pub use output::write_answer;
pub use put::answer;

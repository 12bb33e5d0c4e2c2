// The text of the listing program: what it reads, byte by byte, and the lines that it writes.
#![tactic(auto)]

mod columns;
mod reader;
mod size;
mod writer;

pub use columns::{COLUMNS, KEPT, MOST};
pub use reader::{Reader, feed_all, start};
pub use size::too_large;
pub use writer::{Answer, put_answer, put_listing};

// The public calls, over five lent tables of any length and any content: a start and a run.
#![tactic(auto)]

pub mod run;
pub mod start;

// The acts, one function for each, over the lent tables: the heap's update in its table (heap), the queues of events (queue), entering and leaving a cell (links),
// and the grains' numbers (store).
#![tactic(auto)]

pub mod heap;
pub mod links;
pub mod queue;
pub mod store;

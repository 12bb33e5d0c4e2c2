// The lent tables: how many grains, cells and event places they hold, how long they must be (lengths), where each row stands (parts), and the leaves that read and write
// them: headers, grains, rows of numbers, event places and rows of them (queues), the scheduler (heap).
#![tactic(auto)]

pub mod grains;
pub mod headers;
pub mod heap;
pub mod lengths;
pub mod parts;
pub mod places;
pub mod queues;
pub mod rows;

#[derive(Clone, Copy)]
pub struct Sizes {
    pub grains: usize,
    pub cells: usize,
    pub room: usize,
}

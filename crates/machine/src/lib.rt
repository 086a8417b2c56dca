// The step machine: events on the records that a caller lends, and a whole run on records of its own.
#![tactic(auto)]

pub mod acceptors;
pub mod calls;
mod lent;
mod running;
mod sending;
mod step;

// How many numbers of a log an answer has. C lends a log as numbers.
pub const PER_ANSWER: usize = 2;

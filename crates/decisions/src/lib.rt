// What one event does to the records that it finds, by value: the first refusal but 8, the change, and the messages to send.
#![tactic(auto)]

pub mod arms;
pub mod decide;
pub mod sending;
mod sound;

// The bytes of sets and records as the site server keeps them: read, tested and put. The layouts are in specs/Layout.antt.
#![tactic(auto)]

pub mod acceptors;
pub mod fields;
pub mod learners;
pub mod proposers;

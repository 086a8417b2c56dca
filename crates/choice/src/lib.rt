// Tests in their order, and the refusals that they give.
#![tactic(auto)]

pub mod refusals;

// The calls of the site server, a C program, on numbers and byte slices. Each is ok, or gives the refusal that comes first, which leaves every lent byte; C is given its number, 0 where it is ok.
// The parameters are those of C's interface (include/yazhmandu.h), and so what a call gives beside its answer goes to lent places: `time`, `found`, `reply`, `learns`, `length`.
// A set is 8 bytes, scan 0 the lowest bit of the first. The layouts of the records are those of the crate layouts, specs/Layout.antt.
#![tactic(auto)]

pub mod acceptor_call;
pub mod clock_call;
pub mod form_calls;
pub mod learner_call;
pub mod proposer_calls;
pub mod shelf_call;
pub mod text_call;

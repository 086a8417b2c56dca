// The records of a run, and the rules of one party by value. What each event does to a run is defined in specs/.
#![tactic(auto)]

pub mod acceptors;
pub mod events;
pub mod learners;
pub mod messages;
pub mod proposers;
pub mod ranges;
pub mod records;

use sets::acceptors::Acceptors;
use sets::scans::Scans;
use sets::{AcceptorId, LearnerId, ProposerId};

#[repr(C)]
#[derive(Clone, Copy, Debug, PartialEq, Eq, Hash)]
pub struct Proposer {
    pub alive: bool,
    pub active: bool,
    pub buffered: Scans,
    pub proposed: Scans,
    pub gathered: Scans,
    pub number: u16,
    pub acknowledged: Acceptors,
    pub rejected: Acceptors,
    pub decided: Scans,
}

#[repr(C)]
#[derive(Clone, Copy, Debug, PartialEq, Eq, Hash)]
pub struct Acceptor {
    pub alive: bool,
    pub accepted: Scans,
}

// The newest number heard of one proposer, its set and its acceptors.
#[repr(C)]
#[derive(Clone, Copy, Debug, PartialEq, Eq, Hash)]
pub struct Heard {
    pub number: u16,
    pub set: Scans,
    pub acceptors: Acceptors,
}

// One place of `heard` for each proposer; those past the run's own are no records.
#[repr(C)]
#[derive(Clone, Copy, Debug, PartialEq, Eq, Hash)]
pub struct Learner {
    pub alive: bool,
    pub learnt: Scans,
    pub heard: [Heard; 8],
}

// What a slot of the table holds, by its number.
#[derive(Clone, Copy, Debug, PartialEq, Eq, Hash)]
pub enum Kind {
    Free = 0,
    Internal = 1,
    Proposal = 2,
    // To a proposer.
    Acknowledgement = 3,
    Rejection = 4,
    // An acknowledgement to a learner.
    Announcement = 5,
    // Any other number.
    NoKind = 6,
}

// A slot of the table of messages in flight. C lends it, so its kind is a number.
#[repr(C)]
#[derive(Clone, Copy, Debug, PartialEq, Eq, Hash)]
pub struct Message {
    pub kind: u8,
    pub addressee: u8,
    pub proposer: ProposerId,
    pub acceptor: AcceptorId,
    pub number: u16,
    pub set: Scans,
}

// What an event does, by its number.
#[derive(Clone, Copy, Debug, PartialEq, Eq, Hash)]
pub enum Code {
    // Any other number.
    NoCode = 0,
    Receive = 1,
    Deliver = 2,
    Drop = 3,
    Duplicate = 4,
    Propose = 5,
    Refine = 6,
    Decide = 7,
    Crash = 8,
}

// Whom a Crash is about, by its number.
#[derive(Clone, Copy, Debug, PartialEq, Eq, Hash)]
pub enum Role {
    // Any other number.
    NoRole = 0,
    Proposer = 1,
    Acceptor = 2,
    Learner = 3,
}

// C and schedules give its code, and the role in `a`, as numbers.
#[repr(C)]
#[derive(Clone, Copy, Debug, PartialEq, Eq, Hash)]
pub struct Event {
    pub code: u64,
    pub a: u64,
    pub b: u64,
}

// What an event answers that is not refused.
#[derive(Clone, Copy, Debug, PartialEq, Eq, Hash)]
pub enum Answer {
    Done,
    Learnt { learner: LearnerId, set: Scans },
    Decided { proposer: ProposerId, set: Scans },
}

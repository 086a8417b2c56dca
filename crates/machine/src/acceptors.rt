// One acceptor's answer to a proposal, on the record that a caller lends. It tests all that it is given.
ghost use Rattle.std.specs.Prelude.{◌≡◌};
ghost use Rattle.choice.specs.Refusals.{no, numbered};
ghost use Rattle.machine.specs.Acceptors.{reply_no, answering_no, replying, reply_to, record_after};

use choice::refusals::{Refusal, refuse_unless};
use model::Acceptor;
use sets::scans::Scans;
use sizes::scans_in_range;

// What an acceptor says to a proposal: that it accepts or rejects it, with the set to send.
#[derive(Clone, Copy, Debug, PartialEq, Eq, Hash)]
pub enum Reply {
    Accepted(Scans),
    Rejected(Scans),
}

// The record that a proposal leaves, and the reply to it or its refusal.
#[derive(Clone, Copy, Debug, PartialEq, Eq, Hash)]
pub struct Answered {
    pub acceptor: Acceptor,
    pub reply: Result<Reply, Refusal>,
}

// 1 for the number of scans and the record, 3 for the set, 5 where the acceptor has crashed.
#[tactic(auto, unfolding(crate::specs::Acceptors::answering_no))]
fn check_answer(scans: u64, before: Acceptor, set: Scans) -> Result<(), Refusal>
    ensures { no result ≡ answering_no scans before set }
{
    refuse_unless(scans_in_range(scans), Refusal::OutOfRange)?;
    let scans = scans as u32;
    refuse_unless(before.accepted.fits(scans), Refusal::OutOfRange)?;
    refuse_unless(set.fits(scans), Refusal::NotThere)?;
    refuse_unless(before.alive, Refusal::Crashed)
}

// What an acceptor that answers says.
fn replying(before: Acceptor, set: Scans) -> Reply
    ensures { result ≡ replying before set }
{
    let sent = before.answer(set).accepted;
    if before.accepts(set) {
        Reply::Accepted(sent)
    } else {
        Reply::Rejected(sent)
    }
}

// One acceptor's answer to a proposal of a set, on the record that a caller lends: the rule's, by value, is stored over it.
pub fn answer_proposal(scans: u64, acceptor: &mut Acceptor, set: Scans) -> Result<Reply, Refusal>
    ensures { (numbered result ≡ reply_to scans acceptor.old set)
        × (reply_no (numbered result) ≡ answering_no scans acceptor.old set)
        × (acceptor.new ≡ record_after scans acceptor.old set) }
{
    let before = *acceptor;
    check_answer(scans, before, set)?;
    *acceptor = before.answer(set);
    Ok(replying(before, set))
}

// The same of a record by value, which is lent to the call above and handed back with the reply.
pub fn answer_by_value(scans: u64, before: Acceptor, set: Scans) -> Answered
    ensures { (result.acceptor ≡ record_after scans before set)
        × (numbered result.reply ≡ reply_to scans before set) }
{
    let mut acceptor = before;
    let reply = answer_proposal(scans, &mut acceptor, set);
    Answered { acceptor, reply }
}

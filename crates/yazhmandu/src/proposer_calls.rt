// The rules of a proposer on its record.
// Each call takes the run's numbers of acceptors and of scans. 1 for these and the record, 3 for the arguments, then 5, 6 and 7 as the rule has them.
// Each reads the record and puts it back in two lines: a function over both that takes the rule as a closure makes none of them shorter.
ghost use Rattle.std.specs.Prelude.{◌≡◌};
ghost use Rattle.choice.specs.Refusals.{no};
ghost use Rattle.model.specs.Rules.{propose_no, proposing, refine_no, refining, decide_no, deciding};
ghost use Rattle.yazhmandu.specs.Calls.{buffer_no, buffer_record, acknowledged_no, acknowledged_record, rejected_no, rejected_record, call_no, call_record};

use choice::refusals::{Refusal, refuse_unless};
use layouts::fields::{is_answer, read_set};
use layouts::proposers::{put_proposer, read_proposer};
use sets::AcceptorId;

// Buffers the set of a received scan or of an internal message.
#[tactic(auto, using(crate::proofs::Kept::few_acceptors, crate::proofs::Kept::put_whole), unfolding(crate::specs::Calls::buffer_no, crate::specs::Calls::buffer_record))]
pub fn ymd_buffer(acceptors: u64, scans: u64, kept: &mut [u8], set: &[u8]) -> Result<(), Refusal>
    ensures { (no result ≡ buffer_no acceptors scans kept.old set.now)
        × (kept.new ≡ buffer_record acceptors scans kept.old set.now) }
{
    let before = read_proposer(kept, acceptors, scans).ok_or(Refusal::OutOfRange)?;
    let sent = read_set(set, scans).ok_or(Refusal::NotThere)?;
    refuse_unless(before.alive, Refusal::Crashed)?;
    put_proposer(kept, before.buffer(sent));
    Ok(())
}

// Takes an acceptor's acknowledgement of a number. A late one is ok and does nothing.
#[tactic(auto, using(crate::proofs::Kept::few_acceptors, crate::proofs::Kept::put_whole), unfolding(crate::specs::Calls::acknowledged_no, crate::specs::Calls::acknowledged_record))]
pub fn ymd_acknowledged(
    acceptors: u64,
    scans: u64,
    kept: &mut [u8],
    acceptor: u64,
    number: u64,
) -> Result<(), Refusal>
    ensures { (no result ≡ acknowledged_no acceptors scans kept.old acceptor number)
        × (kept.new ≡ acknowledged_record acceptors scans kept.old acceptor number) }
{
    let before = read_proposer(kept, acceptors, scans).ok_or(Refusal::OutOfRange)?;
    refuse_unless(is_answer(acceptors, acceptor, number), Refusal::NotThere)?;
    refuse_unless(before.alive, Refusal::Crashed)?;
    if before.is_current(number as u16) {
        put_proposer(kept, before.acknowledge(AcceptorId(acceptor as u8)));
    }
    Ok(())
}

// Takes an acceptor's rejection of a number, with the set that it sent. A late one is ok and does nothing.
#[tactic(auto, using(crate::proofs::Kept::few_acceptors, crate::proofs::Kept::put_whole), unfolding(crate::specs::Calls::rejected_no, crate::specs::Calls::rejected_record))]
pub fn ymd_rejected(
    acceptors: u64,
    scans: u64,
    kept: &mut [u8],
    acceptor: u64,
    number: u64,
    set: &[u8],
) -> Result<(), Refusal>
    ensures { (no result ≡ rejected_no acceptors scans kept.old acceptor number set.now)
        × (kept.new ≡ rejected_record acceptors scans kept.old acceptor number set.now) }
{
    let before = read_proposer(kept, acceptors, scans).ok_or(Refusal::OutOfRange)?;
    refuse_unless(is_answer(acceptors, acceptor, number), Refusal::NotThere)?;
    let sent = read_set(set, scans).ok_or(Refusal::NotThere)?;
    refuse_unless(before.alive, Refusal::Crashed)?;
    if before.is_current(number as u16) {
        put_proposer(kept, before.reject(AcceptorId(acceptor as u8), sent));
    }
    Ok(())
}

// Propose: the number and the set to send stand in the record.
#[tactic(auto, using(crate::proofs::Kept::few_acceptors, crate::proofs::Kept::put_whole), unfolding(crate::specs::Calls::call_no, crate::specs::Calls::call_record, model::specs::Rules::after_propose))]
pub fn ymd_propose(acceptors: u64, scans: u64, kept: &mut [u8]) -> Result<(), Refusal>
    ensures { (no result ≡ call_no acceptors scans kept.old propose_no)
        × (kept.new ≡ call_record acceptors scans kept.old propose_no proposing) }
{
    let before = read_proposer(kept, acceptors, scans).ok_or(Refusal::OutOfRange)?;
    before.check_propose()?;
    put_proposer(kept, before.propose());
    Ok(())
}

// Refine: the number and the set to send stand in the record.
#[tactic(auto, using(crate::proofs::Kept::few_acceptors, crate::proofs::Kept::put_whole), unfolding(crate::specs::Calls::call_no, crate::specs::Calls::call_record, model::specs::Rules::after_refine))]
pub fn ymd_refine(acceptors: u64, scans: u64, kept: &mut [u8]) -> Result<(), Refusal>
    ensures { (no result ≡ call_no acceptors scans kept.old (refine_no acceptors))
        × (kept.new ≡ call_record acceptors scans kept.old (refine_no acceptors) refining) }
{
    let before = read_proposer(kept, acceptors, scans).ok_or(Refusal::OutOfRange)?;
    before.check_refine(acceptors as u32)?;
    put_proposer(kept, before.refine(acceptors as u32));
    Ok(())
}

// Decide: the decided set stands in the record.
#[tactic(auto, using(crate::proofs::Kept::few_acceptors, crate::proofs::Kept::put_whole), unfolding(crate::specs::Calls::call_no, crate::specs::Calls::call_record, model::specs::Rules::after_decide))]
pub fn ymd_decide(acceptors: u64, scans: u64, kept: &mut [u8]) -> Result<(), Refusal>
    ensures { (no result ≡ call_no acceptors scans kept.old (decide_no acceptors))
        × (kept.new ≡ call_record acceptors scans kept.old (decide_no acceptors) deciding) }
{
    let before = read_proposer(kept, acceptors, scans).ok_or(Refusal::OutOfRange)?;
    before.check_decide(acceptors as u32)?;
    put_proposer(kept, before.decide(acceptors as u32));
    Ok(())
}

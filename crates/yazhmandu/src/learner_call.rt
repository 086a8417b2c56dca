// The learner's rule on its record.
ghost use Rattle.std.specs.Prelude.{◌≡◌};
ghost use Rattle.choice.specs.Refusals.{no};
ghost use Rattle.yazhmandu.specs.Calls.{hear_no, hear_record, hear_learns};

use choice::refusals::{Refusal, refuse_unless};
use layouts::fields::{flag_at, is_answer, put_flagged, read_set, set_at};
use layouts::learners::{heard_at, is_learner, put_heard};
use model::{Kind, Message};
use sets::{AcceptorId, ProposerId};

// Takes an acceptor's acknowledgement of a proposer's number, with the set that it carries. The record is updated, and `learns` is 1 where the learnt set changed and 0 where it did not.
// 1 for the sizes and the record, 3 for the proposer, the acceptor, the number and the set, 5 where the learner has crashed.
// Past its test one place of the record is read and put, and not the learner as a whole, for speed.
#[tactic(auto, using(crate::proofs::Kept::few_proposers, crate::proofs::Kept::most_acceptors), unfolding(crate::specs::Calls::hear_no, crate::specs::Calls::hear_record, crate::specs::Calls::hear_learns, layouts::specs::Layout::learner_at))]
pub fn ymd_hear(
    proposers: u64,
    acceptors: u64,
    scans: u64,
    kept: &mut [u8],
    proposer: u64,
    acceptor: u64,
    number: u64,
    set: &[u8],
    learns: &mut u8,
) -> Result<(), Refusal>
    ensures { (no result ≡ hear_no proposers acceptors scans kept.old proposer acceptor number set.now)
        × (kept.new ≡ hear_record proposers acceptors scans kept.old proposer acceptor number set.now)
        × (learns.new ≡ hear_learns proposers acceptors scans kept.old proposer acceptor number set.now learns.old) }
{
    refuse_unless(
        is_learner(kept, proposers, acceptors, scans),
        Refusal::OutOfRange,
    )?;
    refuse_unless(proposer < proposers, Refusal::NotThere)?;
    refuse_unless(is_answer(acceptors, acceptor, number), Refusal::NotThere)?;
    let sent = read_set(set, scans).ok_or(Refusal::NotThere)?;
    refuse_unless(flag_at(kept, 0), Refusal::Crashed)?;
    let told = Message {
        kind: Kind::Announcement as u8,
        addressee: 0,
        proposer: ProposerId(proposer as u8),
        acceptor: AcceptorId(acceptor as u8),
        number: number as u16,
        set: sent,
    };
    let old = heard_at(kept, told.proposer);
    let new = old.hear(told);
    let taught = old.teaches(told, set_at(kept, 1), acceptors as u32);
    *learns = taught as u8;
    put_heard(kept, told.proposer, new);
    if taught {
        put_flagged(kept, true, new.set);
    }
    Ok(())
}

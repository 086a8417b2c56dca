// The acceptor's rule on its record.
ghost use Rattle.std.specs.Prelude.{◌≡◌};
ghost use Rattle.choice.specs.Refusals.{no};
ghost use Rattle.yazhmandu.specs.Calls.{proposal_no, answer_record, answer_reply};

use choice::refusals::{Refusal, refuse_unless};
use layouts::acceptors::{acceptor_at, is_acceptor};
use layouts::fields::{FLAGGED_SIZE, SET_SIZE, is_flag, put_flagged, set_at};
use machine::acceptors::{Reply, answer_by_value};

// A reply is a flag and a set.
pub const REPLY_SIZE: usize = FLAGGED_SIZE as usize;

// Takes a proposal's set. The record is updated, and `reply` tells whether it is accepted (0 or 1) and the set to send.
// 1 for the number of scans and the record, 3 for the set, 5 where the acceptor has crashed.
// Only the lengths and the flag are tested here, since the machine's call tests what is in the bytes; a set of another length is refused after the record.
#[tactic(auto, using(crate::proofs::Replying::whole_length, crate::proofs::Replying::whole_flag, crate::proofs::Replying::set_length), unfolding(crate::specs::Calls::proposal_no, crate::specs::Calls::answer_record, crate::specs::Calls::answer_reply))]
pub fn ymd_answer_proposal(
    scans: u64,
    kept: &mut [u8],
    set: &[u8],
    reply: &mut [u8; REPLY_SIZE],
) -> Result<(), Refusal>
    ensures { (no result ≡ proposal_no scans kept.old set.now)
        × (kept.new ≡ answer_record scans kept.old set.now)
        × (reply.new ≡ answer_reply scans kept.old set.now reply.old) }
{
    refuse_unless(kept.len() == FLAGGED_SIZE as usize, Refusal::OutOfRange)?;
    refuse_unless(is_flag(kept, 0), Refusal::OutOfRange)?;
    if set.len() != SET_SIZE as usize {
        refuse_unless(is_acceptor(kept, scans), Refusal::OutOfRange)?;
        return Err(Refusal::NotThere);
    }
    let before = acceptor_at(kept);
    let proposed = set_at(set, 0);
    let answered = answer_by_value(scans, before, proposed);
    let said = answered.reply?;
    put_flagged(kept, answered.acceptor.alive, answered.acceptor.accepted);
    match said {
        Reply::Accepted(sent) => put_flagged(reply, true, sent),
        Reply::Rejected(sent) => put_flagged(reply, false, sent),
    }
    Ok(())
}

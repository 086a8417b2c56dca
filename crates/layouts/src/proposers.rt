// A proposer's record. It alone is read and put whole (an acceptor's is put as a flag and a set, a learner's place by place), so that a trait over records would have one use.
ghost use Rattle.std.specs.Prelude.{◌≡◌, if◌then◌else◌};
ghost use Rattle.std.proofs.lemmas.List.Edits.{sets};
ghost use Rattle.layouts.specs.Layout.{is_proposer, proposer_at, proposer_bytes};

use crate::fields::{
    SET_SIZE, acceptors_at, flag_at, is_flag, number_at, put_acceptors, put_flag, put_number,
    put_set, set_at, sizes_of,
};
use model::Proposer;
use model::records::Record;

// Where a field begins after the two flags, and the length of all.
const BUFFERED: u16 = 2;

const PROPOSED: u16 = BUFFERED + SET_SIZE;

const GATHERED: u16 = PROPOSED + SET_SIZE;

const NUMBER: u16 = GATHERED + SET_SIZE;

const ACKNOWLEDGED: u16 = NUMBER + 2;

const REJECTED: u16 = ACKNOWLEDGED + 1;

const DECIDED: u16 = REJECTED + 1;

const PROPOSER_SIZE: u16 = DECIDED + SET_SIZE;

#[tactic(auto, unfolding(crate::specs::Layout::proposer_at))]
pub fn proposer_at(kept: &[u8]) -> Proposer
    ensures { result ≡ proposer_at kept.now }
{
    let alive = flag_at(kept, 0);
    let active = flag_at(kept, 1);
    let buffered = set_at(kept, BUFFERED);
    let proposed = set_at(kept, PROPOSED);
    let gathered = set_at(kept, GATHERED);
    let number = number_at(kept, NUMBER);
    let acknowledged = acceptors_at(kept, ACKNOWLEDGED);
    let rejected = acceptors_at(kept, REJECTED);
    let decided = set_at(kept, DECIDED);
    Proposer {
        alive,
        active,
        buffered,
        proposed,
        gathered,
        number,
        acknowledged,
        rejected,
        decided,
    }
}

// Inlined, so that a call stores the fields alone that it changes.
#[inline(always)]
pub fn put_proposer(kept: &mut [u8], p: Proposer)
    ensures { kept.new ≡ sets kept.old 0 (proposer_bytes p) }
{
    put_flag(kept, 0, p.alive);
    put_flag(kept, 1, p.active);
    put_set(kept, BUFFERED, p.buffered);
    put_set(kept, PROPOSED, p.proposed);
    put_set(kept, GATHERED, p.gathered);
    put_number(kept, NUMBER, p.number);
    put_acceptors(kept, ACKNOWLEDGED, p.acknowledged);
    put_acceptors(kept, REJECTED, p.rejected);
    put_set(kept, DECIDED, p.decided);
}

// Whether the bytes are a proposer's record of a run of so many acceptors and scans.
pub fn is_proposer(kept: &[u8], acceptors: u64, scans: u64) -> bool
    ensures { result ≡ is_proposer acceptors scans kept.now }
{
    let z = sizes_of(1, acceptors, scans);
    if !z.in_range() {
        return false;
    }
    if kept.len() != PROPOSER_SIZE as usize {
        return false;
    }
    if !is_flag(kept, 0) {
        return false;
    }
    if !is_flag(kept, 1) {
        return false;
    }
    proposer_at(kept).in_range(z)
}

// The proposer whose record the bytes are, or none. Inlined, and without a closure, so that a call that has one knows how many bytes there are and puts each field back at once.
#[inline(always)]
pub fn read_proposer(kept: &[u8], acceptors: u64, scans: u64) -> Option<Proposer>
    ensures { result ≡ (if is_proposer acceptors scans kept.now then Some (proposer_at kept.now) else None) }
{
    if is_proposer(kept, acceptors, scans) {
        Some(proposer_at(kept))
    } else {
        None
    }
}

// A learner's record: alive and learnt, then a place for each proposer of the run.
ghost use Rattle.std.specs.Prelude.{◌≡◌};
ghost use Rattle.std.proofs.lemmas.List.Edits.{sets};
ghost use Rattle.layouts.specs.Layout.{heard_place, heard_at, heard_bytes, places_at, is_learner};
ghost use Rattle.model.specs.Ranges.{all, heard_in_range};

use crate::fields::{
    FLAGGED_SIZE, SET_SIZE, acceptors_at, is_flag, number_at, put_acceptors, put_number, put_set,
    set_at, sizes_of,
};
use model::Heard;
use sets::ProposerId;
use sizes::Sizes;

// A place is a number, a set and acceptors.
const HEARD_ACCEPTORS: u16 = 2 + SET_SIZE;

const HEARD_SIZE: u16 = HEARD_ACCEPTORS + 1;

// Where the place of a proposer begins.
fn place_of(proposer: ProposerId) -> u16
    ensures { result ≡ heard_place proposer.0 }
{
    FLAGGED_SIZE + HEARD_SIZE * proposer.0 as u16
}

// What was heard of one proposer. Inlined, since a learner's test reads each place.
#[inline(always)]
#[tactic(auto, unfolding(crate::specs::Layout::heard_at))]
pub fn heard_at(kept: &[u8], proposer: ProposerId) -> Heard
    ensures { result ≡ heard_at kept.now (heard_place proposer.0) }
{
    let at = place_of(proposer);
    let number = number_at(kept, at);
    let set = set_at(kept, at + 2);
    let acceptors = acceptors_at(kept, at + HEARD_ACCEPTORS);
    Heard {
        number,
        set,
        acceptors,
    }
}

pub fn put_heard(kept: &mut [u8], proposer: ProposerId, heard: Heard)
    ensures { kept.new ≡ sets kept.old (heard_place proposer.0) (heard_bytes heard) }
{
    let at = place_of(proposer);
    put_number(kept, at, heard.number);
    put_set(kept, at + 2, heard.set);
    put_acceptors(kept, at + HEARD_ACCEPTORS, heard.acceptors);
}

// Whether what was heard of the first proposers is within its ranges.
fn places_in_range(kept: &[u8], count: u8, z: Sizes) -> bool
    ensures { result ≡ all (heard_in_range z) (places_at count kept.now) }
{
    (0..count).all(|i| heard_at(kept, ProposerId(i)).in_range(z))
}

// Whether the bytes are a learner's record of a run of these sizes.
pub fn is_learner(kept: &[u8], proposers: u64, acceptors: u64, scans: u64) -> bool
    ensures { result ≡ is_learner proposers acceptors scans kept.now }
{
    let z = sizes_of(proposers, acceptors, scans);
    if !z.in_range() {
        return false;
    }
    if kept.len() != FLAGGED_SIZE as usize + HEARD_SIZE as usize * proposers as usize {
        return false;
    }
    if !is_flag(kept, 0) {
        return false;
    }
    if !set_at(kept, 1).fits(z.scans as u32) {
        return false;
    }
    let count = z.proposers as u8;
    places_in_range(kept, count, z)
}

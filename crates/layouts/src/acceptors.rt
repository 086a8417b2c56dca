// An acceptor's record.
ghost use Rattle.std.specs.Prelude.{◌≡◌};
ghost use Rattle.layouts.specs.Layout.{is_acceptor, acceptor_at};

use crate::fields::{FLAGGED_SIZE, flag_at, is_flag, set_at, sizes_of};
use model::Acceptor;
use model::records::Record;

#[tactic(auto, unfolding(crate::specs::Layout::acceptor_at))]
pub fn acceptor_at(kept: &[u8]) -> Acceptor
    ensures { result ≡ acceptor_at kept.now }
{
    let alive = flag_at(kept, 0);
    let accepted = set_at(kept, 1);
    Acceptor { alive, accepted }
}

// Whether the bytes are an acceptor's record of a run of so many scans.
pub fn is_acceptor(kept: &[u8], scans: u64) -> bool
    ensures { result ≡ is_acceptor scans kept.now }
{
    let z = sizes_of(1, 1, scans);
    if !z.in_range() {
        return false;
    }
    if kept.len() != FLAGGED_SIZE as usize {
        return false;
    }
    if !is_flag(kept, 0) {
        return false;
    }
    acceptor_at(kept).in_range(z)
}

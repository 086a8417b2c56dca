// The sizes of a run and their ranges.
#![tactic(auto)]

ghost use Rattle.std.specs.Prelude.{◌≡◌};
ghost use Rattle.sizes.specs.Sizes.{between, scans_in_range, sizes_in_range};

use sets::acceptors::MOST_ACCEPTORS;
use sets::scans::MOST_SCANS;

// How many proposers, acceptors, learners, message slots and scans a run has.
#[repr(C)]
#[derive(Clone, Copy, Debug, PartialEq, Eq, Hash)]
pub struct Sizes {
    pub proposers: u16,
    pub acceptors: u16,
    pub learners: u16,
    pub slots: u16,
    pub scans: u16,
}

fn is_between(least: u64, greatest: u64, n: u64) -> bool
    ensures { result ≡ between least greatest n }
{
    (least..=greatest).contains(&n)
}

// Whether a run, or a scan table, may have so many scans.
#[tactic(auto, unfolding(crate::specs::Sizes::scans_in_range, sets::specs::Scans::most_scans))]
pub fn scans_in_range(scans: u64) -> bool
    ensures { result ≡ scans_in_range scans }
{
    is_between(1, u64::from(MOST_SCANS), scans)
}

impl Sizes {
    // Whether each size is within its range.
    #[tactic(auto, unfolding(crate::specs::Sizes::sizes_in_range, sets::specs::Acceptors::most_acceptors))]
    pub fn in_range(self) -> bool
        ensures { result ≡ sizes_in_range self }
    {
        is_between(1, 8, u64::from(self.proposers))
            & is_between(1, u64::from(MOST_ACCEPTORS), u64::from(self.acceptors))
            & is_between(1, 8, u64::from(self.learners))
            & is_between(16, 512, u64::from(self.slots))
            & scans_in_range(u64::from(self.scans))
    }
}

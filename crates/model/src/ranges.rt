// Whether the fields of a record are within their ranges, for a run of these sizes: what the records' tests share.
ghost use Rattle.std.specs.Prelude.{◌≡◌, ltb};
ghost use Rattle.sizes.specs.Sizes.{between};
ghost use Rattle.model.specs.Rules.{greatest_number};
ghost use Rattle.model.specs.Ranges.{heard_in_range};

use crate::Heard;
use crate::proposers::GREATEST_NUMBER;
use sizes::Sizes;

// Whether the party exists, of so many.
pub(crate) fn exists(party: u8, count: u16) -> bool
    ensures { result ≡ ltb party count }
{
    (party as u16) < count
}

// Whether it is the number of a proposal.
pub(crate) fn is_number(number: u16) -> bool
    ensures { result ≡ between 1 greatest_number number }
{
    1 <= number && number <= GREATEST_NUMBER
}

impl Heard {
    #[tactic(auto, unfolding(crate::specs::Ranges::heard_in_range))]
    pub fn in_range(self, z: Sizes) -> bool
        ensures { result ≡ heard_in_range z self }
    {
        self.number <= GREATEST_NUMBER
            && self.set.fits(z.scans as u32)
            && self.acceptors.fits(z.acceptors as u32)
    }
}

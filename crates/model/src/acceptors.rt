// The rule of an acceptor.
ghost use Rattle.std.specs.Prelude.{◌≡◌};
ghost use Rattle.model.specs.Records.{fresh_acceptor};
ghost use Rattle.model.specs.Ranges.{acceptor_in_range};
ghost use Rattle.model.specs.Rules.{accepts, answering, crashed_acceptor};

use crate::Acceptor;
use crate::records::Record;
use sets::scans::Scans;
use sizes::Sizes;

impl Record for Acceptor {
    ghost fresh_record = { fresh_acceptor };

    ghost is_in_range = { acceptor_in_range };

    fn fresh() -> Acceptor {
        Acceptor {
            alive: true,
            accepted: Scans::empty(),
        }
    }

    #[tactic(auto, unfolding(crate::specs::Ranges::acceptor_in_range))]
    fn in_range(self, z: Sizes) -> bool {
        self.accepted.fits(z.scans as u32)
    }
}

impl Acceptor {
    // Whether it accepts the set: what it accepted is contained in it.
    #[tactic(auto, unfolding(crate::specs::Rules::accepts))]
    pub fn accepts(self, set: Scans) -> bool
        ensures { result ≡ accepts self set }
    {
        self.accepted.is_contained_in(set)
    }

    // A proposal of a set: accepted becomes the set if it accepts it, and otherwise gains it. What is accepted then is the set to send.
    #[tactic(auto, unfolding(crate::specs::Rules::answering, crate::specs::Rules::accepting, crate::specs::Rules::gaining))]
    pub fn answer(mut self, set: Scans) -> Acceptor
        ensures { result ≡ answering self set }
    {
        self.accepted = if self.accepts(set) {
            set
        } else {
            self.accepted.union(set)
        };
        self
    }

    // Each kind of party crashes by this line of its own, as the impls of a trait would.
    #[tactic(auto, unfolding(crate::specs::Rules::crashed_acceptor))]
    pub fn crash(mut self) -> Acceptor
        ensures { result ≡ crashed_acceptor self }
    {
        self.alive = false;
        self
    }
}

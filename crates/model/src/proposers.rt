// The rules of a proposer.
ghost use Rattle.std.specs.Prelude.{◌≡◌, ltb};
ghost use Rattle.choice.specs.Tests.{◌unless◌, ◌⨾◌, ok};
ghost use Rattle.choice.specs.Refusals.{no};
ghost use Rattle.model.specs.Records.{fresh_proposer};
ghost use Rattle.model.specs.Ranges.{proposer_in_range};
ghost use Rattle.model.specs.Rules.{greatest_number, buffering, is_current, acknowledging, rejecting, may_propose, propose_no, after_propose, may_refine, refine_no, after_refine, may_decide, decide_no, after_decide, crashed_proposer};

use crate::Proposer;
use crate::records::Record;
use choice::refusals::{Refusal, refuse_unless};
use sets::AcceptorId;
use sets::acceptors::Acceptors;
use sets::scans::Scans;
use sizes::Sizes;

// Proposal numbers run to 1,000.
pub const GREATEST_NUMBER: u16 = 1000;

// The first refusal of a rule: where its proposer has crashed, and where it is not enabled. Which refusals stand in which order is each caller's own.
fn check_enabled(alive: bool, enabled: bool) -> Result<(), Refusal>
    ensures { no result ≡ (5 unless alive ⨾ 6 unless enabled ⨾ ok) }
{
    refuse_unless(alive, Refusal::Crashed)?;
    refuse_unless(enabled, Refusal::NotEnabled)
}

// The same, then where the number is already the greatest.
fn check_numbered(alive: bool, enabled: bool, number: u16) -> Result<(), Refusal>
    ensures { no result ≡ (5 unless alive ⨾ 6 unless enabled ⨾ 7 unless ltb number greatest_number ⨾ ok) }
{
    check_enabled(alive, enabled)?;
    refuse_unless(number < GREATEST_NUMBER, Refusal::LastNumber)
}

impl Record for Proposer {
    ghost fresh_record = { fresh_proposer };

    ghost is_in_range = { proposer_in_range };

    fn fresh() -> Proposer {
        Proposer {
            alive: true,
            active: false,
            buffered: Scans::empty(),
            proposed: Scans::empty(),
            gathered: Scans::empty(),
            number: 0,
            acknowledged: Acceptors::none(),
            rejected: Acceptors::none(),
            decided: Scans::empty(),
        }
    }

    #[tactic(auto, unfolding(crate::specs::Ranges::proposer_in_range))]
    fn in_range(self, z: Sizes) -> bool {
        let scans = z.scans as u32;
        let acceptors = z.acceptors as u32;
        self.buffered.fits(scans)
            & self.proposed.fits(scans)
            & self.gathered.fits(scans)
            & (self.number <= GREATEST_NUMBER)
            & self.acknowledged.fits(acceptors)
            & self.rejected.fits(acceptors)
            & self.decided.fits(scans)
            & (!self.active | (1 <= self.number))
    }
}

impl Proposer {
    // Buffered gains the set.
    #[tactic(auto, unfolding(crate::specs::Rules::buffering))]
    pub fn buffer(mut self, set: Scans) -> Proposer
        ensures { result ≡ buffering self set }
    {
        let buffered = self.buffered.union(set);
        self.buffered = buffered;
        self
    }

    // Whether an answer to this number counts.
    #[tactic(auto, unfolding(crate::specs::Rules::is_current))]
    pub fn is_current(self, number: u16) -> bool
        ensures { result ≡ is_current self number }
    {
        self.active && number == self.number
    }

    // The acceptor joins the acknowledging ones.
    #[tactic(auto, unfolding(crate::specs::Rules::acknowledging))]
    pub fn acknowledge(mut self, acceptor: AcceptorId) -> Proposer
        ensures { result ≡ acknowledging self acceptor.0 }
    {
        let acknowledged = self.acknowledged.with(acceptor);
        self.acknowledged = acknowledged;
        self
    }

    // The acceptor joins the rejecting ones and gathered gains the set.
    #[tactic(auto, unfolding(crate::specs::Rules::rejecting))]
    pub fn reject(mut self, acceptor: AcceptorId, set: Scans) -> Proposer
        ensures { result ≡ rejecting self acceptor.0 set }
    {
        let rejected = self.rejected.with(acceptor);
        let gathered = self.gathered.union(set);
        self.rejected = rejected;
        self.gathered = gathered;
        self
    }

    // Passive with buffered not empty.
    #[tactic(auto, unfolding(crate::specs::Rules::may_propose))]
    fn may_propose(self) -> bool
        ensures { result ≡ may_propose self }
    {
        !self.active && !self.buffered.is_empty()
    }

    // Propose's refusal, where it has one.
    #[tactic(auto, unfolding(crate::specs::Rules::propose_no))]
    pub fn check_propose(self) -> Result<(), Refusal>
        ensures { no result ≡ propose_no self }
    {
        check_numbered(self.alive, self.may_propose(), self.number)
    }

    // Propose: the next number, for what was proposed and buffered; a refusal changes nothing.
    #[tactic(auto, unfolding(crate::specs::Rules::after_propose, crate::specs::Rules::proposing, crate::specs::Rules::propose_no))]
    pub fn propose(mut self) -> Proposer
        ensures { result ≡ after_propose self }
    {
        if self.check_propose().is_err() {
            return self;
        }
        let proposed = self.proposed.union(self.buffered);
        self.active = true;
        self.buffered = Scans::empty();
        self.proposed = proposed;
        self.gathered = Scans::empty();
        self.number = self.number + 1;
        self.acknowledged = Acceptors::none();
        self.rejected = Acceptors::none();
        self
    }

    // Active, some acceptor has rejected, and those that answered, counted once each, are a majority.
    #[tactic(auto, unfolding(crate::specs::Rules::may_refine))]
    fn may_refine(self, acceptors: u32) -> bool
        ensures { result ≡ may_refine acceptors self }
    {
        let answered = self.acknowledged.union(self.rejected);
        self.active && 0 < self.rejected.size() && answered.is_majority_of(acceptors)
    }

    // Refine's refusal, where it has one.
    #[tactic(auto, unfolding(crate::specs::Rules::refine_no))]
    pub fn check_refine(self, acceptors: u32) -> Result<(), Refusal>
        ensures { no result ≡ refine_no acceptors self }
    {
        check_numbered(self.alive, self.may_refine(acceptors), self.number)
    }

    // Refine: the next number, for what was proposed and gathered; a refusal changes nothing.
    #[tactic(auto, unfolding(crate::specs::Rules::after_refine, crate::specs::Rules::refining, crate::specs::Rules::refine_no))]
    pub fn refine(mut self, acceptors: u32) -> Proposer
        ensures { result ≡ after_refine acceptors self }
    {
        if self.check_refine(acceptors).is_err() {
            return self;
        }
        let proposed = self.proposed.union(self.gathered);
        self.proposed = proposed;
        self.gathered = Scans::empty();
        self.number = self.number + 1;
        self.acknowledged = Acceptors::none();
        self.rejected = Acceptors::none();
        self
    }

    // Active, and the acknowledging ones are a majority.
    #[tactic(auto, unfolding(crate::specs::Rules::may_decide))]
    fn may_decide(self, acceptors: u32) -> bool
        ensures { result ≡ may_decide acceptors self }
    {
        self.active && self.acknowledged.is_majority_of(acceptors)
    }

    // Decide's refusal, where it has one.
    #[tactic(auto, unfolding(crate::specs::Rules::decide_no))]
    pub fn check_decide(self, acceptors: u32) -> Result<(), Refusal>
        ensures { no result ≡ decide_no acceptors self }
    {
        check_enabled(self.alive, self.may_decide(acceptors))
    }

    // Decide: decided becomes proposed, not gathered; a refusal changes nothing.
    #[tactic(auto, unfolding(crate::specs::Rules::after_decide, crate::specs::Rules::deciding, crate::specs::Rules::decide_no))]
    pub fn decide(mut self, acceptors: u32) -> Proposer
        ensures { result ≡ after_decide acceptors self }
    {
        if self.check_decide(acceptors).is_err() {
            return self;
        }
        let proposed = self.proposed;
        self.active = false;
        self.decided = proposed;
        self
    }

    // Each kind of party crashes by this line of its own, as the impls of a trait would.
    #[tactic(auto, unfolding(crate::specs::Rules::crashed_proposer))]
    pub fn crash(mut self) -> Proposer
        ensures { result ≡ crashed_proposer self }
    {
        self.alive = false;
        self
    }
}

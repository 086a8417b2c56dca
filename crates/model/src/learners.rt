// The rule of a learner.
ghost use Rattle.std.specs.Prelude.{◌≡◌};
ghost use Rattle.model.specs.Records.{unheard, fresh_learner, heard_of};
ghost use Rattle.model.specs.Ranges.{learner_in_range};
ghost use Rattle.model.specs.Rules.{hearing, teaches, learns, listening, crashed_learner};

use crate::records::Record;
use crate::{Heard, Learner, Message};
use sets::ProposerId;
use sets::acceptors::Acceptors;
use sets::scans::Scans;
use sizes::Sizes;

impl Heard {
    pub fn unheard() -> Heard
        ensures { result ≡ unheard }
    {
        Heard {
            number: 0,
            set: Scans::empty(),
            acceptors: Acceptors::none(),
        }
    }

    // A higher number than heard replaces number, set and acceptors; an equal one adds the acceptor; a lower one does nothing more.
    #[tactic(auto, unfolding(crate::specs::Rules::hearing))]
    pub fn hear(self, m: Message) -> Heard
        ensures { result ≡ hearing self m }
    {
        if self.number < m.number {
            Heard {
                number: m.number,
                set: m.set,
                acceptors: Acceptors::none().with(m.acceptor),
            }
        } else if self.number == m.number {
            Heard {
                acceptors: self.acceptors.with(m.acceptor),
                ..self
            }
        } else {
            self
        }
    }

    // Whether the acknowledgement makes a learner learn the set that is then held: it is not lower, the acceptors are then a majority, and learnt is strictly contained in the set.
    #[tactic(auto, using(crate::proofs::RuleLaws::rank_lower))]
    pub fn teaches(self, m: Message, learnt: Scans, acceptors: u32) -> bool
        ensures { result ≡ teaches acceptors learnt self m }
    {
        let new = self.hear(m);
        !(m.number < self.number)
            && new.acceptors.is_majority_of(acceptors)
            && learnt.is_strictly_contained_in(new.set)
    }
}

impl Record for Learner {
    ghost fresh_record = { fresh_learner };

    ghost is_in_range = { learner_in_range };

    fn fresh() -> Learner {
        Learner {
            alive: true,
            learnt: Scans::empty(),
            heard: [Heard::unheard(); 8],
        }
    }

    // Of what it heard, the places of the run's own proposers. By index, since a walk of references has a record of 208 bytes copied first.
    fn in_range(self, z: Sizes) -> bool {
        if !self.learnt.fits(z.scans as u32) {
            return false;
        }
        for place in 0..8 {
            if z.proposers as usize <= place {
                return true;
            }
            if !self.heard[place].in_range(z) {
                return false;
            }
        }
        true
    }
}

impl Learner {
    // What it heard of a proposer; nothing of one past its places.
    pub fn heard_of(self, proposer: ProposerId) -> Heard
        ensures { result ≡ heard_of self proposer.0 }
    {
        match self.heard.get(proposer.0 as usize) {
            Some(heard) => *heard,
            None => Heard::unheard(),
        }
    }

    // Whether the acknowledgement makes it learn.
    #[tactic(auto, unfolding(crate::specs::Rules::learns))]
    pub fn learns(self, m: Message, acceptors: u32) -> bool
        ensures { result ≡ learns acceptors self m }
    {
        self.heard_of(m.proposer).teaches(m, self.learnt, acceptors)
    }

    // Takes one acknowledgement, and hands the learner back. What it hears of a proposer past its places it does not hold.
    #[tactic(auto, unfolding(crate::specs::Rules::listening, crate::specs::Rules::learns))]
    pub fn hear(mut self, m: Message, acceptors: u32) -> Learner
        ensures { result ≡ listening acceptors self m }
    {
        let old = self.heard_of(m.proposer);
        let new = old.hear(m);
        if old.teaches(m, self.learnt, acceptors) {
            self.learnt = new.set;
        }
        let place = m.proposer.0 as usize;
        if place < self.heard.len() {
            self.heard[place] = new;
        }
        self
    }

    // Each kind of party crashes by this line of its own, as the impls of a trait would.
    #[tactic(auto, unfolding(crate::specs::Rules::crashed_learner))]
    pub fn crash(mut self) -> Learner
        ensures { result ≡ crashed_learner self }
    {
        self.alive = false;
        self
    }
}

// A slot of the table, and the kinds of messages of their numbers.
ghost use Rattle.std.specs.Prelude.{◌≡◌};
ghost use Rattle.model.specs.Records.{kind_of, free_slot, acknowledgement};
ghost use Rattle.model.specs.Ranges.{fields_in_range, message_in_range};
ghost use Rattle.model.specs.Table.{is_free};

use crate::ranges::{exists, is_number};
use crate::records::Record;
use crate::{Kind, Message};
use sets::scans::Scans;
use sets::{AcceptorId, ProposerId};
use sizes::Sizes;

impl From<u8> for Kind {
    ghost from_gives = { λ n kind. kind ≡ kind_of n };

    fn from(number: u8) -> Kind {
        match number {
            0 => Kind::Free,
            1 => Kind::Internal,
            2 => Kind::Proposal,
            3 => Kind::Acknowledgement,
            4 => Kind::Rejection,
            5 => Kind::Announcement,
            _ => Kind::NoKind,
        }
    }
}

impl Record for Message {
    ghost fresh_record = { free_slot };

    ghost is_in_range = { message_in_range };

    // A free slot, all zero.
    fn fresh() -> Message {
        Message {
            kind: Kind::Free as u8,
            addressee: 0,
            proposer: ProposerId(0),
            acceptor: AcceptorId(0),
            number: 0,
            set: Scans::empty(),
        }
    }

    // The tests of a kind are joined without a branch, which is faster over a table of many kinds.
    #[tactic(auto, unfolding(crate::specs::Ranges::message_in_range, crate::specs::Ranges::fields_in_range))]
    fn in_range(self, z: Sizes) -> bool {
        match Kind::from(self.kind) {
            Kind::Free => (self.addressee == 0)
                & (self.proposer.0 == 0)
                & (self.acceptor.0 == 0)
                & (self.number == 0)
                & self.set.is_empty(),
            Kind::Internal => exists(self.addressee, z.proposers)
                & (self.proposer.0 == 0)
                & (self.acceptor.0 == 0)
                & (self.number == 0)
                & self.set.fits(z.scans as u32),
            Kind::Proposal => exists(self.addressee, z.acceptors)
                & exists(self.proposer.0, z.proposers)
                & (self.acceptor.0 == 0)
                & is_number(self.number)
                & self.set.fits(z.scans as u32),
            Kind::Acknowledgement | Kind::Rejection => self.answers_in_range(z),
            Kind::Announcement => exists(self.addressee, z.learners)
                & exists(self.proposer.0, z.proposers)
                & exists(self.acceptor.0, z.acceptors)
                & is_number(self.number)
                & self.set.fits(z.scans as u32),
            Kind::NoKind => false,
        }
    }
}

impl Message {
    // The fields of an acknowledgement or a rejection: from an acceptor, to a proposer.
    #[tactic(auto, unfolding(crate::specs::Ranges::fields_in_range))]
    fn answers_in_range(self, z: Sizes) -> bool
        ensures { result ≡ fields_in_range z self acknowledgement }
    {
        exists(self.addressee, z.proposers)
            & (self.proposer.0 == 0)
            & exists(self.acceptor.0, z.acceptors)
            & is_number(self.number)
            & self.set.fits(z.scans as u32)
    }

    pub fn is_free(self) -> bool
        ensures { result ≡ is_free self }
    {
        self.kind == Kind::Free as u8
    }
}

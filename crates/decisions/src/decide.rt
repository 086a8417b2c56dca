// What one event does to the records that it finds, by value: what it is refused for but 8, and what it leaves.
ghost use Rattle.std.specs.Prelude.{◌≡◌};
ghost use Rattle.choice.specs.Refusals.{no, numbered};
ghost use Rattle.model.specs.Records.{fresh_proposer, fresh_acceptor};
ghost use Rattle.decisions.specs.Change.{of_proposer, of_acceptor, unchanged_one, freed_one, sends_one, unchanged, receiving_of, proposing_of, acceptor_sends, answering_of, acknowledged_by, rejected_by, as_proposer, proposals_of, slot_after};
ghost use Rattle.decisions.specs.Sending.{count_of};
ghost use Rattle.decisions.specs.Arms.{need_of, given};
ghost use Rattle.decisions.specs.Refusals.{slot_no, receive_no, proposer_no, party_no};

use crate::sending::Send;
use crate::sound::Sound;
use choice::refusals::{Refusal, refuse_unless};
use model::records::Record;
use model::{Acceptor, Kind, Message, Proposer};
use sets::scans::Scans;
use sets::{AcceptorId, ProposerId, ScanId};
use sizes::Sizes;

// What an event leaves of the party that it is about, whether it frees its slot, and what it then sends.
#[derive(Clone, Copy, Debug, PartialEq, Eq, Hash)]
pub struct Change<P> {
    pub party: P,
    pub frees: bool,
    pub send: Send,
}

// ---- what an event leaves. A rule takes an event's arguments a and b, and not its code, as the definitions of refusals do (`slot_no`, `proposer_no`)

pub fn unchanged_of<P: Copy>(party: P) -> Change<P>
    ensures { result ≡ unchanged_one party }
{
    Change {
        party,
        frees: false,
        send: Send::Nothing,
    }
}

pub(crate) fn freed_of<P: Copy>(party: P) -> Change<P>
    ensures { result ≡ freed_one party }
{
    Change {
        frees: true,
        ..unchanged_of(party)
    }
}

pub(crate) fn sends_of<P: Copy>(party: P, send: Send) -> Change<P>
    ensures { result ≡ sends_one party send }
{
    Change {
        send,
        ..unchanged_of(party)
    }
}

impl<P: Copy> Change<P> {
    // How many free slots it asks for: the one that it frees is there for what it sends.
    #[tactic(auto, unfolding(crate::specs::Arms::need_of))]
    pub fn need(self) -> u8
        ensures { result ≡ need_of 0 self.frees (count_of self.send) }
    {
        let count = self.send.count();
        if self.frees {
            count.saturating_sub(1)
        } else {
            count
        }
    }
}

// Receive: internal {scan} to every other proposer, where proposer and scan are there and it has not crashed.
#[tactic(auto, using(sizes::proofs::SizeLaws::bounds), unfolding(crate::specs::Change::receiving_of))]
pub(crate) fn receive(z: Sound, a: u64, b: u64, q: Proposer) -> Result<Change<Proposer>, Refusal>
    ensures { numbered result ≡ given (receive_no z a b q.alive) (of_proposer (receiving_of z a b q fresh_acceptor)) }
{
    let z = z.sizes();
    let there = a < z.proposers as u64 && b < z.scans as u64;
    check_party(there, q.alive)?;
    let set = Scans::of_one(ScanId((b % 65_536) as u16));
    let message = Message {
        kind: Kind::Internal as u8,
        addressee: 0,
        proposer: ProposerId(0),
        acceptor: AcceptorId(0),
        number: 0,
        set,
    };
    let send = Send::Others {
        count: (z.proposers - 1) as u8,
        except: (a % 256) as u8,
        message,
    };
    Ok(sends_of(q.buffer(set), send))
}

// What an acceptor sends: acknowledgements to the proposer and then to every learner, or a rejection to the proposer.
#[tactic(auto, using(sizes::proofs::SizeLaws::bounds), unfolding(crate::specs::Change::acceptor_sends))]
fn acceptor_sends(z: Sound, m: Message, accepted: bool, set: Scans) -> Send
    ensures { result ≡ acceptor_sends z m accepted set }
{
    let acceptor = AcceptorId(m.addressee);
    if accepted {
        let message = Message {
            kind: Kind::Announcement as u8,
            addressee: 0,
            proposer: m.proposer,
            acceptor,
            number: m.number,
            set,
        };
        Send::Acknowledgements {
            count: z.sizes().learners as u8 + 1,
            message,
        }
    } else {
        Send::One(Message {
            kind: Kind::Rejection as u8,
            addressee: m.proposer.0,
            proposer: ProposerId(0),
            acceptor,
            number: m.number,
            set,
        })
    }
}

// Delivery of a proposal.
#[tactic(auto, unfolding(crate::specs::Change::answering_of))]
pub(crate) fn deliver_proposal(z: Sound, m: Message, c: Acceptor) -> Change<Acceptor>
    ensures { result ≡ of_acceptor (answering_of z m fresh_proposer c) }
{
    let accepted = c.accepts(m.set);
    let party = c.answer(m.set);
    let send = acceptor_sends(z, m, accepted, party.accepted);
    Change {
        send,
        ..freed_of(party)
    }
}

// Delivery of an acknowledgement to its proposer.
#[tactic(auto, unfolding(crate::specs::Change::acknowledged_by))]
pub(crate) fn acknowledged_by(q: Proposer, m: Message) -> Proposer
    ensures { result ≡ acknowledged_by q m }
{
    if q.is_current(m.number) {
        q.acknowledge(m.acceptor)
    } else {
        q
    }
}

// Delivery of a rejection.
#[tactic(auto, unfolding(crate::specs::Change::rejected_by))]
pub(crate) fn rejected_by(q: Proposer, m: Message) -> Proposer
    ensures { result ≡ rejected_by q m }
{
    if q.is_current(m.number) {
        q.reject(m.acceptor, m.set)
    } else {
        q
    }
}

// A proposer's proposal to every acceptor.
#[tactic(auto, using(sizes::proofs::SizeLaws::bounds))]
fn proposals_of(z: Sound, a: u64, q: Proposer) -> Send
    ensures { result ≡ proposals_of z (as_proposer a) q }
{
    let set = q.proposed;
    let message = Message {
        kind: Kind::Proposal as u8,
        addressee: 0,
        proposer: ProposerId((a % 256) as u8),
        acceptor: AcceptorId(0),
        number: q.number,
        set,
    };
    Send::Everyone {
        count: z.sizes().acceptors as u8,
        message,
    }
}

// Propose and Refine, where there is such a proposer and its own rule does not refuse: its new record, and its proposals.
pub(crate) fn proposed(
    z: Sound,
    a: u64,
    b: u64,
    own: Result<(), Refusal>,
    q: Proposer,
) -> Result<Change<Proposer>, Refusal>
    ensures { numbered result ≡ given (proposer_no z a b (no own)) (of_proposer (proposing_of z a q fresh_acceptor)) }
{
    check_proposer(z.sizes(), a, b, own)?;
    Ok(sends_of(q, proposals_of(z, a, q)))
}

// Decide, likewise: its new record.
pub(crate) fn decided(
    z: Sizes,
    a: u64,
    b: u64,
    own: Result<(), Refusal>,
    q: Proposer,
) -> Result<Change<Proposer>, Refusal>
    ensures { numbered result ≡ given (proposer_no z a b (no own)) (of_proposer (unchanged q fresh_acceptor)) }
{
    check_proposer(z, a, b, own)?;
    Ok(unchanged_of(q))
}

// ---- the slot after a change

#[tactic(auto, unfolding(crate::specs::Change::slot_after))]
pub fn slot_after(frees: bool, m: Message) -> Message
    ensures { result ≡ slot_after frees m }
{
    if frees { Message::fresh() } else { m }
}

// ---- what an event is refused for but 1 and 8

// Where an event names what does not exist, then where the party has crashed.
pub(crate) fn check_party(exists: bool, alive: bool) -> Result<(), Refusal>
    ensures { no result ≡ party_no exists alive }
{
    refuse_unless(exists, Refusal::NotThere)?;
    refuse_unless(alive, Refusal::Crashed)
}

// Codes 2 to 4: where there is no such slot, then where it is free.
pub(crate) fn check_slot(z: Sizes, a: u64, b: u64, m: Message) -> Result<(), Refusal>
    ensures { no result ≡ slot_no z a b m }
{
    refuse_unless(a < z.slots as u64 && b == 0, Refusal::NotThere)?;
    refuse_unless(!m.is_free(), Refusal::FreeSlot)
}

// Codes 5 to 7: where there is no such proposer, then the proposer's own refusal.
fn check_proposer(z: Sizes, a: u64, b: u64, own: Result<(), Refusal>) -> Result<(), Refusal>
    ensures { no result ≡ proposer_no z a b (no own) }
{
    refuse_unless(a < z.proposers as u64 && b == 0, Refusal::NotThere)?;
    own
}

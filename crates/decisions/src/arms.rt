// What one event does to the records of its arm, by value: which arm takes it, what the arm decides, and what is answered.
// Sizes, event and message are three parameters throughout, as the definitions take them that the clauses name: each clause would take one struct of the three apart.
ghost use Rattle.std.specs.Prelude.{◌≡◌, true, eqb, Ok, Err};
ghost use Rattle.std.specs.Prelude.{if◌then◌else◌};
ghost use Rattle.sizes.specs.Sizes.{sizes_in_range};
ghost use Rattle.choice.specs.Tests.{◌unless◌, ◌⨾◌, ok};
ghost use Rattle.choice.specs.Refusals.{numbered_by, no, numbered};
ghost use Rattle.model.specs.Records.{kind_of, fresh_proposer, fresh_acceptor};
ghost use Rattle.model.specs.Events.{code_of};
ghost use Rattle.model.specs.declared.Code.TheVariants.{Deliver as deliver};
ghost use Rattle.decisions.specs.Change.{unchanged_one};
ghost use Rattle.decisions.specs.Refusals.{slot_no, party_no};
ghost use Rattle.decisions.specs.Arms.{takes, arm_of_kind, arm_of_role, arm_of, decided_in, by_proposer, by_acceptor, by_table, by_learner, given, told_by, told_in, delivered_no, ear_at, ear_says, hears, heeded, heard_no, heard_in, finished, replied};
ghost use Rattle.decisions.specs.declared.arms.Arm.TheVariants as arm;

use crate::decide::{
    Change, acknowledged_by, check_party, check_slot, decided, deliver_proposal, freed_of,
    proposed, receive, rejected_by, sends_of, unchanged_of,
};
use crate::sending::Send;
use crate::sound::Sound;
use choice::refusals::{Reason, Refusal, refuse_unless};
use model::{Acceptor, Answer, Code, Event, Heard, Kind, Message, Proposer, Role};
use sets::scans::Scans;
use sets::{LearnerId, ProposerId};
use sizes::Sizes;

// Who takes an event.
#[derive(Clone, Copy, Debug, PartialEq, Eq, Hash)]
pub enum Arm {
    // No party.
    Table,
    // A proposer that acts.
    Proposer,
    Acceptor,
    Learner,
    // A proposer that is told.
    Told,
}

// What a learner has of itself and of one proposer.
#[derive(Clone, Copy, Debug, PartialEq, Eq, Hash)]
pub struct Ear {
    pub alive: bool,
    pub learnt: Scans,
    pub heard: Heard,
}

// What an event leaves of a learner, and what it answers.
#[derive(Clone, Copy, Debug, PartialEq, Eq, Hash)]
pub struct Heeded {
    pub change: Change<Ear>,
    pub answer: Answer,
}

// ---- the arm that takes an event

fn arm_of_kind(kind: Kind) -> Arm
    ensures { result ≡ arm_of_kind kind }
{
    match kind {
        Kind::Internal | Kind::Acknowledgement | Kind::Rejection => Arm::Told,
        Kind::Proposal => Arm::Acceptor,
        Kind::Announcement => Arm::Learner,
        Kind::Free | Kind::NoKind => Arm::Table,
    }
}

fn arm_of_role(role: Role) -> Arm
    ensures { result ≡ arm_of_role role }
{
    match role {
        Role::Proposer => Arm::Proposer,
        Role::Acceptor => Arm::Acceptor,
        Role::Learner => Arm::Learner,
        Role::NoRole => Arm::Table,
    }
}

#[tactic(auto, unfolding(crate::specs::Arms::arm_at))]
pub fn arm_of(e: Event, m: Message) -> Arm
    ensures { result ≡ arm_of e m }
{
    match Code::from(e.code) {
        Code::Receive | Code::Propose | Code::Refine | Code::Decide => Arm::Proposer,
        Code::Deliver => arm_of_kind(Kind::from(m.kind)),
        Code::Crash => arm_of_role(Role::from(e.a)),
        Code::Drop | Code::Duplicate | Code::NoCode => Arm::Table,
    }
}

// ---- what an arm decides

// The sizes, where they are in range and the event is one of the arm.
fn check_taken(arm: Arm, z: Sizes, e: Event, m: Message) -> Result<Sound, Refusal>
    ensures { numbered result ≡ given (2 unless takes arm z e m ⨾ ok) z }
{
    let sound = Sound::check(z)?;
    refuse_unless(arm == arm_of(e, m), Refusal::NoSuchCode)?;
    Ok(sound)
}

// Deliver: the refusals of its slot, then where its party has crashed.
fn check_delivered(z: Sizes, e: Event, m: Message, alive: bool) -> Result<(), Refusal>
    ensures { no result ≡ delivered_no z e m alive }
{
    check_slot(z, e.a, e.b, m)?;
    refuse_unless(alive, Refusal::Crashed)
}

// What a Deliver leaves of its party, or the refusal.
fn delivered<P: Copy>(
    z: Sizes,
    e: Event,
    m: Message,
    alive: bool,
    change: Change<P>,
) -> Result<Change<P>, Refusal>
    ensures { numbered result ≡ given (delivered_no z e m alive) change }
{
    check_delivered(z, e, m, alive)?;
    Ok(change)
}

// What a Drop or a Duplicate leaves of its slot.
fn of_slot(z: Sizes, a: u64, b: u64, m: Message, change: Change<()>) -> Result<Change<()>, Refusal>
    ensures { numbered result ≡ given (slot_no z a b m) change }
{
    check_slot(z, a, b, m)?;
    Ok(change)
}

// What a Crash leaves of its party.
fn crashed<P: Copy>(exists: bool, alive: bool, party: P) -> Result<Change<P>, Refusal>
    ensures { numbered result ≡ given (party_no exists alive) (unchanged_one party) }
{
    check_party(exists, alive)?;
    Ok(unchanged_of(party))
}

// What is decided of an acting proposer, of an acceptor, and of the table alone. Each takes its own events, where the sizes are in range, and refuses the others with 2.
pub fn decide_proposer(
    z: Sizes,
    e: Event,
    m: Message,
    q: Proposer,
) -> Result<Change<Proposer>, Refusal>
    ensures { numbered result ≡ by_proposer (decided_in arm.Proposer z e m q fresh_acceptor) }
{
    let sound = check_taken(Arm::Proposer, z, e, m)?;
    let acceptors = z.acceptors as u32;
    let a = e.a;
    let b = e.b;
    match Code::from(e.code) {
        Code::Receive => receive(sound, a, b, q),
        Code::Propose => proposed(sound, a, b, q.check_propose(), q.propose()),
        Code::Refine => proposed(sound, a, b, q.check_refine(acceptors), q.refine(acceptors)),
        Code::Decide => decided(z, a, b, q.check_decide(acceptors), q.decide(acceptors)),
        _ => crashed(b < z.proposers as u64, q.alive, q.crash()),
    }
}

pub fn decide_acceptor(
    z: Sizes,
    e: Event,
    m: Message,
    c: Acceptor,
) -> Result<Change<Acceptor>, Refusal>
    ensures { numbered result ≡ by_acceptor (decided_in arm.Acceptor z e m fresh_proposer c) }
{
    let sound = check_taken(Arm::Acceptor, z, e, m)?;
    match Code::from(e.code) {
        Code::Deliver => delivered(z, e, m, c.alive, deliver_proposal(sound, m, c)),
        _ => crashed(e.b < z.acceptors as u64, c.alive, c.crash()),
    }
}

pub fn decide_table(z: Sizes, e: Event, m: Message) -> Result<Change<()>, Refusal>
    ensures { numbered result ≡ by_table (decided_in arm.Table z e m fresh_proposer fresh_acceptor) }
{
    check_taken(Arm::Table, z, e, m)?;
    match Code::from(e.code) {
        Code::Deliver => delivered(z, e, m, true, unchanged_of(())),
        Code::Drop => of_slot(z, e.a, e.b, m, freed_of(())),
        Code::Duplicate => of_slot(z, e.a, e.b, m, sends_of((), Send::One(m))),
        Code::Crash => Err(Refusal::NotThere),
        _ => Err(Refusal::NoSuchCode),
    }
}

// What a message leaves of a proposer that is told.
#[tactic(auto, unfolding(crate::specs::Arms::told_by))]
fn told_by(q: Proposer, m: Message) -> Proposer
    ensures { result ≡ told_by q m (kind_of m.kind) }
{
    match Kind::from(m.kind) {
        Kind::Internal => q.buffer(m.set),
        Kind::Acknowledgement => acknowledged_by(q, m),
        Kind::Rejection => rejected_by(q, m),
        Kind::Free | Kind::Proposal | Kind::Announcement | Kind::NoKind => q,
    }
}

// What a Deliver leaves of a proposer that is told, which asks for no room.
#[tactic(auto, unfolding(crate::specs::Arms::told_in))]
pub fn tell(z: Sizes, e: Event, m: Message, q: Proposer) -> Result<Change<Proposer>, Refusal>
    ensures { numbered result ≡ by_proposer (told_in z e m q) }
{
    delivered(z, e, m, q.alive, freed_of(told_by(q, m)))
}

// ---- a learner: it does a Deliver, or else a Crash

// A learner hears the message.
#[tactic(auto, unfolding(crate::specs::Arms::ear_at, crate::specs::Arms::ear_says))]
fn hear_it(z: Sizes, m: Message, mut x: Ear) -> Heeded
    ensures { result ≡ heeded (ear_at z m x deliver) true (ear_says z m x deliver) }
{
    let new = x.heard.hear(m);
    let learns = x.heard.teaches(m, x.learnt, z.acceptors as u32);
    x.heard = new;
    if learns {
        let set = new.set;
        x.learnt = set;
        let learner = LearnerId(m.addressee);
        Heeded {
            change: freed_of(x),
            answer: Answer::Learnt { learner, set },
        }
    } else {
        Heeded {
            change: freed_of(x),
            answer: Answer::Done,
        }
    }
}

#[tactic(auto, unfolding(crate::specs::Arms::ear_at, crate::specs::Arms::ear_says))]
fn heard_by(z: Sizes, e: Event, m: Message, mut x: Ear) -> Heeded
    ensures { result ≡ heeded (ear_at z m x (code_of e.code)) (hears (code_of e.code)) (ear_says z m x (code_of e.code)) }
{
    match Code::from(e.code) {
        Code::Deliver => hear_it(z, m, x),
        Code::Crash => {
            x.alive = false;
            Heeded {
                change: unchanged_of(x),
                answer: Answer::Done,
            }
        }
        _ => Heeded {
            change: unchanged_of(x),
            answer: Answer::Done,
        },
    }
}

fn check_heard(z: Sizes, e: Event, m: Message, alive: bool) -> Result<(), Refusal>
    ensures { no result ≡ heard_no z e m alive }
{
    if e.code == Code::Deliver as u64 {
        check_delivered(z, e, m, alive)
    } else {
        check_party(e.b < z.learners as u64, alive)
    }
}

// What a Deliver or a Crash leaves of a learner, by the one place that it is about.
#[tactic(auto, unfolding(crate::specs::Arms::heard_in))]
pub fn listen(z: Sizes, e: Event, m: Message, x: Ear) -> Result<Heeded, Refusal>
    ensures { numbered result ≡ by_learner (heard_in z e m x) }
{
    check_heard(z, e, m, x.alive)?;
    Ok(heard_by(z, e, m, x))
}

// ---- what is left, and what is answered

// The change, or 8 where slots are lacking for it; a refusal stays.
pub fn finish<P: Copy, R: Reason>(
    decided: Result<Change<P>, R>,
    lacking: u8,
) -> Result<Change<P>, R>
    ensures { numbered_by R.number_of result ≡ finished (numbered_by R.number_of decided) lacking }
{
    match decided {
        Ok(_) if lacking != 0 => Err(R::of(Refusal::NoRoom)),
        _ => decided,
    }
}

// What an event answers where no learner hears, and where its proposer's decided set is this one; a refusal stays.
pub fn reply<R: Reason>(e: Event, decided: Result<Scans, R>) -> Result<Answer, R>
    ensures { numbered_by R.number_of result ≡ replied e (numbered_by R.number_of decided) }
{
    match decided {
        Ok(set) if e.code == Code::Decide as u64 => Ok(Answer::Decided {
            proposer: ProposerId((e.a % 256) as u8),
            set,
        }),
        Ok(_) => Ok(Answer::Done),
        Err(refusal) => Err(refusal),
    }
}

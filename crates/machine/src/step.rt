// One event on the records that a caller lends: fetch, decide, write back.
ghost use Rattle.std.specs.Prelude.{◌≡◌, ◌<◌, ◌≤◌, [], length, set};
ghost use Rattle.choice.specs.Refusals.{numbered};
ghost use Rattle.model.specs.Table.{post};
ghost use Rattle.decisions.specs.Sending.{items_of};
ghost use Rattle.decisions.specs.Change.{slot_after};
ghost use Rattle.machine.specs.Slots.{Ready};
ghost use Rattle.machine.specs.Stepping.{index_in, party_of, Fits, Gives, step_of};
ghost use Rattle.machine.specs.Roles.{step_at, GivesSlots, GivesProposers, GivesAcceptors, GivesLearners, OfTable, OfProposer, OfAcceptor, OfLearner, OfTold};

use crate::lent::{load, load_ear, room, send_all, store, store_ear};
use choice::refusals::Refusal;
use decisions::arms::{
    Arm, arm_of, decide_acceptor, decide_proposer, decide_table, finish, listen, reply, tell,
};
use decisions::decide::slot_after;
use decisions::sending::Send;
use model::{Acceptor, Answer, Code, Event, Learner, Message, Proposer};
use sets::{AcceptorId, LearnerId, ProposerId};
use sizes::Sizes;

// ---- which records an event finds. A number that is too great finds record 0, which it leaves as it is.

#[tactic(auto, unfolding(crate::specs::Stepping::index_in))]
fn index_in(i: u64, n: u16) -> usize
    ensures { result ≡ index_in i n }
{
    if i < n as u64 {
        return i as usize;
    }
    0
}

// The number of the party that an event is about.
#[tactic(auto, unfolding(crate::specs::Stepping::party_at))]
fn party_of(e: Event, m: Message) -> u64
    ensures { result ≡ party_of e m }
{
    match Code::from(e.code) {
        Code::Deliver => m.addressee as u64,
        Code::Crash => e.b,
        Code::Receive
        | Code::Drop
        | Code::Duplicate
        | Code::Propose
        | Code::Refine
        | Code::Decide
        | Code::NoCode => e.a,
    }
}

// Its number among the `n` parties of its role.
fn number_of(e: Event, m: Message, n: u16) -> u8
    requires { n ≤ 256 }
    ensures { result ≡ index_in (party_of e m) n }
{
    index_in(party_of(e, m), n) as u8
}

// ---- the arms: each takes its own records and the table, and leaves them where it refuses the event. What else they take is what their definitions take, one by one (`step_at`)

// What an event leaves of the table: its slot is written, and then what it sends is posted.
fn write_back(t: &mut [Message], k: usize, m: Message, frees: bool, send: Send)
    requires slot { k < length t.old }
    requires room { Ready send (set t.old k (slot_after frees m)) }
    ensures { t.new ≡ post (items_of send) (set t.old k (slot_after frees m)) }
{
    t[k] = slot_after(frees, m);
    send_all(t, send);
}

fn step_learner(
    z: Sizes,
    ls: &mut [Learner],
    t: &mut [Message],
    e: Event,
    k: usize,
    m: Message,
) -> Result<Answer, Refusal>
    requires { OfLearner z ls.old t.old e k m }
    ensures { GivesLearners
        (step_at z e k m [] [] ls.old t.old)
        (numbered result) ls.new t.new }
{
    let i = LearnerId(number_of(e, m, z.learners));
    let x = load_ear(ls, i, m.proposer);
    let heeded = listen(z, e, m, x)?;
    store_ear(ls, i, m.proposer, heeded.change.party);
    t[k] = slot_after(heeded.change.frees, m);
    Ok(heeded.answer)
}

fn step_told(
    z: Sizes,
    ps: &mut [Proposer],
    t: &mut [Message],
    e: Event,
    k: usize,
    m: Message,
) -> Result<Answer, Refusal>
    requires { OfTold z ps.old t.old e k m }
    ensures { GivesProposers
        (step_at z e k m ps.old [] [] t.old)
        (numbered result) ps.new t.new }
{
    let i = ProposerId(number_of(e, m, z.proposers));
    let q = load(ps, i);
    let told = tell(z, e, m, q)?;
    store(ps, i, told.party);
    t[k] = slot_after(told.frees, m);
    Ok(Answer::Done)
}

fn step_acceptor(
    z: Sizes,
    acs: &mut [Acceptor],
    t: &mut [Message],
    e: Event,
    k: usize,
    m: Message,
) -> Result<Answer, Refusal>
    requires { OfAcceptor z acs.old t.old e k m }
    ensures { GivesAcceptors
        (step_at z e k m [] acs.old [] t.old)
        (numbered result) acs.new t.new }
{
    let i = AcceptorId(number_of(e, m, z.acceptors));
    let c = load(acs, i);
    let decided = decide_acceptor(z, e, m, c)?;
    let change = finish::<_, Refusal>(Ok(decided), room(t, decided.need()))?;
    store(acs, i, change.party);
    write_back(t, k, m, change.frees, change.send);
    Ok(Answer::Done)
}

fn step_proposer(
    z: Sizes,
    ps: &mut [Proposer],
    t: &mut [Message],
    e: Event,
    k: usize,
    m: Message,
) -> Result<Answer, Refusal>
    requires { OfProposer z ps.old t.old e k m }
    ensures { GivesProposers
        (step_at z e k m ps.old [] [] t.old)
        (numbered result) ps.new t.new }
{
    let i = ProposerId(number_of(e, m, z.proposers));
    let q = load(ps, i);
    let decided = decide_proposer(z, e, m, q)?;
    let change = finish::<_, Refusal>(Ok(decided), room(t, decided.need()))?;
    store(ps, i, change.party);
    write_back(t, k, m, change.frees, change.send);
    reply(e, Ok(change.party.decided))
}

fn step_table(
    z: Sizes,
    t: &mut [Message],
    e: Event,
    k: usize,
    m: Message,
) -> Result<Answer, Refusal>
    requires { OfTable z t.old e k m }
    ensures { GivesSlots (step_at z e k m [] [] [] t.old) (numbered result) t.new }
{
    let decided = decide_table(z, e, m)?;
    let change = finish::<_, Refusal>(Ok(decided), room(t, decided.need()))?;
    write_back(t, k, m, change.frees, change.send);
    Ok(Answer::Done)
}

// One event.
pub(crate) fn step(
    z: Sizes,
    ps: &mut [Proposer],
    acs: &mut [Acceptor],
    ls: &mut [Learner],
    t: &mut [Message],
    e: Event,
) -> Result<Answer, Refusal>
    requires { Fits z ps.old acs.old ls.old t.old }
    ensures { Gives (step_of z e ps.old acs.old ls.old t.old) (numbered result)
        ps.new acs.new ls.new t.new }
{
    let k = index_in(e.a, z.slots);
    let m = t[k];
    match arm_of(e, m) {
        Arm::Learner => step_learner(z, ls, t, e, k, m),
        Arm::Told => step_told(z, ps, t, e, k, m),
        Arm::Acceptor => step_acceptor(z, acs, t, e, k, m),
        Arm::Proposer => step_proposer(z, ps, t, e, k, m),
        Arm::Table => step_table(z, t, e, k, m),
    }
}

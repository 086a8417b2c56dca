// A run over the events of a schedule on the records that a caller lends, event by event.
ghost use Rattle.std.specs.Prelude.{◌≡◌, ◌+◌, ◌*◌, ◌<◌, ◌≤◌, length};
ghost use Rattle.choice.specs.Refusals.{numbered};
ghost use Rattle.machine.specs.Running.{driven, Drives, Drove};
ghost use Rattle.machine.specs.Log.{per_answer, noted};
ghost use Rattle.machine.specs.Calls.{event_of, said_of};

use crate::PER_ANSWER;
use crate::calls::Said;
use crate::step::step;
use choice::refusals::Refusal;
use model::{Acceptor, Answer, Event, Learner, Message, Proposer};
use sizes::Sizes;

// Event `k` of a schedule's numbers, three for each: C lends events and logs as numbers in rows.
fn event_at(events: &[u64], k: usize) -> Event
    requires { 3 * k + 2 < length events.now }
    ensures { result ≡ event_of events.now k }
{
    let at = 3 * k;
    Event {
        code: events[at],
        a: events[at + 1],
        b: events[at + 2],
    }
}

// An answer as the two numbers that a log has of it.
#[tactic(auto, unfolding(crate::specs::Log::said_no, crate::specs::Log::said_set))]
pub(crate) fn said_of(answer: Result<Answer, Refusal>) -> Said
    ensures { result ≡ said_of (numbered answer) }
{
    match answer {
        Ok(Answer::Done) => Said { no: 0, set: 0 },
        Ok(Answer::Learnt { learner, set }) => Said {
            no: 256 + learner.0 as u64,
            set: set.bits,
        },
        Ok(Answer::Decided { proposer, set }) => Said {
            no: 512 + proposer.0 as u64,
            set: set.bits,
        },
        Err(refusal) => Said {
            no: u8::from(refusal) as u64,
            set: 0,
        },
    }
}

// Answer `k` into the log.
fn note(log: &mut [u64], k: usize, answer: Result<Answer, Refusal>)
    requires { per_answer * (k + 1) ≤ length log.old }
    ensures { log.new ≡ noted log.old k (numbered answer) }
{
    let at = PER_ANSWER * k;
    let said = said_of(answer);
    log[at] = said.no;
    log[at + 1] = said.set;
}

// The first `n` events. The lists are parameters of their own, here and in `step`: lent as one struct of references, a run of 4,096 events takes 1.07 times as long.
pub(crate) fn drive(
    z: Sizes,
    ps: &mut [Proposer],
    acs: &mut [Acceptor],
    ls: &mut [Learner],
    t: &mut [Message],
    events: &[u64],
    log: &mut [u64],
    n: usize,
)
    requires { Drives z ps.old acs.old ls.old t.old events.now log.old n }
    ensures { Drove
        (driven z ps.old acs.old ls.old t.old events.now log.old n)
        ps.new acs.new ls.new t.new log.new }
{
    for k in 0..n {
        let answer = step(z, ps, acs, ls, t, event_at(events, k));
        note(log, k, answer);
    }
}
